// The checks of a face, in their order.
ghost use Rattle.std.specs.Prelude.{◌≡◌, ℕ, ◌+◌, ◌-◌, ◌*◌, ◌%◌, ◌^◌, ◌<◌, ◌≤◌, Bool, length, Ok};
ghost use Rattle.refusal.specs.First.{each, first_failing, IsFirst, Exactly};
ghost use Rattle.face.specs.Fields.{word_at, word_start, count, levels, height, level_start, template_start, box_width, columns_before, column_start};
ghost use Rattle.face.specs.Laid.{FaceLaid};
ghost use Rattle.face.specs.Verdict.{spare_lawful, head_verdict, level_lawful, levels_verdict, template_lawful, templates_verdict, word_lawful, apart, words, length_verdict, words_verdict, checks_verdict, face_verdict, Headed};

use octets::Number;
use refusal::{Refusal, ensure, ensure_each};

const SMALLEST: usize = 4;

// The bytes of the largest face.
pub const LARGEST: usize = 65_536;

// The bytes of a face whose head was checked. A sheet's file has such a type too: two formats have two heads, and share the
// numbers of `octets` and the checks of `refusal`.
#[derive(Clone, Copy)]
struct Head<'a> {
    bytes: &'a [u8],
    ghost headed: { Headed bytes.now },
}

// A word of the columns of all boxes, by its number.
#[derive(Clone, Copy)]
struct Word<'a> {
    head: Head<'a>,
    number: usize,
    ghost few: { number < 2 ^ 32 },
}

// The size of the file, the three numbers of its head, and whether levels and templates are there.
fn check_head(bytes: &[u8]) -> Result<(), Refusal>
    ensures { result ≡ head_verdict bytes.now }
{
    let length = bytes.len();
    ensure((SMALLEST..=LARGEST).contains(&length), Refusal::FaceSize)?;
    ensure(
        (1..=64).contains(&count(bytes)),
        Refusal::FaceHead { byte: 0 },
    )?;
    ensure(
        (1..=4).contains(&levels(bytes)),
        Refusal::FaceHead { byte: 2 },
    )?;
    ensure(
        (1..=32).contains(&height(bytes)),
        Refusal::FaceHead { byte: 3 },
    )?;
    ensure(
        template_start(bytes, count(bytes)) <= length,
        Refusal::FaceTruncated { length },
    )
}

// The numbers of the head are three functions of one line: each has a place and a width of its own.

// How many templates there are.
pub(crate) fn count(bytes: &[u8]) -> usize
    ensures value { result ≡ count bytes.now }
    ensures bound { result < 65536 }
{
    usize::from(u16::at(bytes, 0))
}

// How many levels a template has.
pub(crate) fn levels(bytes: &[u8]) -> usize
    ensures value { result ≡ levels bytes.now }
    ensures bound { result < 256 }
{
    usize::from(u8::at(bytes, 2))
}

// How many rows a box has.
pub(crate) fn height(bytes: &[u8]) -> usize
    ensures value { result ≡ height bytes.now }
    ensures bound { result < 256 }
{
    usize::from(u8::at(bytes, 3))
}

// Where a number is summed with an index, the clause bounds the index: a type for each index would be longer than its clauses.

// The first byte of a level.
pub(crate) fn level_start(level: usize) -> usize
    requires { level < 256 }
    ensures value { result ≡ level_start level }
    ensures bound { result < 2 ^ 20 }
{
    4 + 4 * level
}

// The first byte of template `t`.
pub(crate) fn template_start(bytes: &[u8], t: usize) -> usize
    requires { t < 65536 }
    ensures value { result ≡ template_start bytes.now t }
    ensures bound { result < 2 ^ 20 }
{
    4 + 4 * levels(bytes) + 8 * t
}

// The first byte of word `j` of all columns, counted from the first word of the first template.
pub(crate) fn word_start(bytes: &[u8], j: usize) -> usize
    requires { j < 2 ^ 32 }
    ensures { result ≡ word_start bytes.now j }
{
    template_start(bytes, count(bytes)) + 4 * j
}

// The first byte of a column, where columns are counted over all templates.
pub(crate) fn column_start(bytes: &[u8], column: usize) -> usize
    requires { column ≤ 65536 }
    ensures { result ≡ column_start bytes.now column }
{
    word_start(bytes, levels(bytes) * column)
}

// How many bytes so many columns take up.
pub(crate) fn columns_size(bytes: &[u8], columns: usize) -> usize
    requires { columns ≤ 65536 }
    ensures { result ≡ 4 * (levels bytes.now * columns) }
{
    4 * (levels(bytes) * columns)
}

// How many columns the box of template `t` has.
fn box_width(bytes: &[u8], t: usize) -> usize
    requires { t < 65536 }
    ensures value { result ≡ box_width bytes.now t }
    ensures bound { result < 256 }
{
    usize::from(u8::at(bytes, template_start(bytes, t) + 2))
}

// How many columns the boxes of the first `t` templates have together.
pub(crate) fn columns_before(bytes: &[u8], t: usize) -> usize
    requires { t < 65536 }
    ensures value { result ≡ columns_before bytes.now t }
    ensures bound { result ≤ 255 * t }
{
    (0..t).map(|i| box_width(bytes, i)).sum()
}

// Whether both weights of a level are in range.
fn level_lawful(bytes: &[u8], level: usize) -> bool
    requires { level < 256 }
    ensures { result ≡ level_lawful bytes.now level }
{
    let at = level_start(level);
    let weights = -1_000..=1_000;
    weights.contains(&i16::at(bytes, at)) && weights.contains(&i16::at(bytes, at + 2))
}

fn check_levels(bytes: &[u8]) -> Result<(), Refusal>
    ensures { result ≡ levels_verdict bytes.now }
{
    ensure_each(
        levels(bytes),
        |l| level_lawful(bytes, l),
        |l| Refusal::FaceLevel {
            byte: level_start(l),
        },
    )
}

// Whether each field of a template is in range, and its spare bytes are 0.
fn template_lawful(bytes: &[u8], t: usize) -> bool
    requires { t < 65536 }
    ensures { result ≡ template_lawful bytes.now t }
{
    let at = template_start(bytes, t);
    let name = (33..=126).contains(&u8::at(bytes, at));
    let setwidth = (1..=64).contains(&u8::at(bytes, at + 1));
    let box_width = u8::at(bytes, at + 2) <= 32;
    let prior = (-10_000..=0).contains(&i16::at(bytes, at + 4));
    name && setwidth && box_width && prior && spare_lawful(bytes, at)
}

// Whether the three spare bytes of the template that begins at `at` are 0.
fn spare_lawful(bytes: &[u8], at: usize) -> bool
    requires { at < 2 ^ 32 }
    ensures { result ≡ spare_lawful bytes.now at }
{
    u8::at(bytes, at + 3) == 0 && u8::at(bytes, at + 6) == 0 && u8::at(bytes, at + 7) == 0
}

fn check_templates(bytes: &[u8]) -> Result<(), Refusal>
    ensures { result ≡ templates_verdict bytes.now }
{
    ensure_each(
        count(bytes),
        |t| template_lawful(bytes, t),
        |t| Refusal::FaceTemplate {
            byte: template_start(bytes, t),
        },
    )
}

// Whether two words have no pixel in common.
fn disjoint(v: u32, w: u32) -> bool
    ensures { result ≡ apart v w }
{
    v & w == 0
}

impl<'a> Head<'a> {
    // The head, once `check_head` refused nothing.
    fn new(bytes: &'a [u8]) -> Head<'a>
        requires { head_verdict bytes.now ≡ Ok tt }
        ensures { result.bytes.now ≡ bytes.now }
    {
        Head { bytes }
    }

    // How many words the columns of all boxes have.
    fn words(&self) -> usize
        ensures value { result ≡ words self.now.bytes.now }
        ensures bound { result < 2 ^ 32 }
    {
        levels(self.bytes) * columns_before(self.bytes, count(self.bytes))
    }

    // Whether the file ends where its last word does. A sheet's has the same shape, over another format's `start` and refusal.
    fn check_length(&self) -> Result<(), Refusal>
        ensures { result ≡ length_verdict self.now.bytes.now }
    {
        let length = self.bytes.len();
        ensure(
            length == self.word(self.words()).start(),
            Refusal::FaceLength { length },
        )
    }

    // Word `j` of all columns.
    fn word(&self, j: usize) -> Word<'a>
        requires { j < 2 ^ 32 }
        ensures head { result.head ≡ self.now }
        ensures number { result.number ≡ j }
    {
        Word {
            head: *self,
            number: j,
        }
    }

    fn check_words(&self) -> Result<(), Refusal>
        ensures { result ≡ words_verdict self.now.bytes.now }
    {
        ensure_each(
            self.words(),
            |j| self.word(j).lawful(),
            |j| Refusal::FaceWord {
                byte: self.word(j).start(),
            },
        )
    }
}

impl<'a> Word<'a> {
    // Its first byte.
    fn start(&self) -> usize
        ensures { result ≡ word_start self.now.head.bytes.now self.now.number }
    {
        word_start(self.head.bytes, self.number)
    }

    // Its pixels.
    fn pixels(&self) -> u32
        ensures { result ≡ word_at self.now.head.bytes.now self.now.number }
    {
        u32::at(self.head.bytes, self.start())
    }

    // Whether it has no pixel of any of the `earlier` words before it.
    fn apart(&self, earlier: usize) -> bool
        requires { earlier ≤ self.now.number }
        ensures { result ≡ each earlier (λ k. apart (word_at self.now.head.bytes.now self.now.number) (word_at self.now.head.bytes.now (self.now.number - (k + 1)))) }
    {
        let pixels = self.pixels();
        let head = self.head;
        let number = self.number;
        (0..earlier).all(|k| disjoint(pixels, head.word(number - (k + 1)).pixels()))
    }

    // Whether it has no pixel below the box, and none that an earlier level of its column has.
    fn lawful(&self) -> bool
        ensures { result ≡ word_lawful self.now.head.bytes.now self.now.number }
    {
        let below = 1u64 << height(self.head.bytes);
        let level = self.number % levels(self.head.bytes);
        u64::from(self.pixels()) < below && self.apart(level)
    }
}

// The first refusal, in the order of the checks.
fn first_refusal(bytes: &[u8]) -> Result<(), Refusal>
    ensures { result ≡ checks_verdict bytes.now }
{
    check_head(bytes)?;
    check_levels(bytes)?;
    check_templates(bytes)?;
    let head = Head::new(bytes);
    head.check_length()?;
    head.check_words()
}

// Does nothing: its contract is the laws that the verdict refuses nothing exactly if the layout holds, and
// that the first thing to fail a test is what it is called.
fn layout_law(bytes: &[u8])
    ensures named { checks_verdict bytes.now ≡ face_verdict bytes.now }
    ensures exactly { Exactly (face_verdict bytes.now) (FaceLaid bytes.now) }
    ensures first { (test : ℕ → Bool) (n : ℕ) → IsFirst test n (first_failing test 0 n) }
{}

// Whether the bytes are a face, or what refuses them.
pub fn check(bytes: &[u8]) -> Result<(), Refusal>
    ensures verdict { result ≡ face_verdict bytes.now }
    ensures exactly { Exactly result (FaceLaid bytes.now) }
    ensures first { (test : ℕ → Bool) (n : ℕ) → IsFirst test n (first_failing test 0 n) }
{
    layout_law(bytes);
    first_refusal(bytes)
}
