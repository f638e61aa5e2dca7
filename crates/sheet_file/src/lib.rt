// The file of a sheet: a line's setwidths and scores, written down beforehand. Its checks, in their order.
#![tactic(auto)]

ghost use Rattle.std.specs.Prelude.{◌≡◌, ℕ, ◌/◌, ◌^◌, ◌<◌, ◌≤◌, Bool, Ok};
ghost use Rattle.refusal.specs.First.{first_failing, IsFirst, Exactly};
ghost use Rattle.sheet_file.specs.Fields.{width as width_of, count as count_of, entries, entry_start, exact_at, bound_at};
ghost use Rattle.sheet_file.specs.Laid.{SheetLaid};
ghost use Rattle.sheet_file.specs.Verdict.{Headed, head_verdict, length_verdict, setwidth_lawful, setwidths_verdict, entry_node, score_within, scores_within, scores_ordered, score_lawful, scores_verdict, order_lawful, orders_verdict, checks_verdict, sheet_verdict};

use octets::Number;
use refusal::{Refusal, ensure, ensure_each};

// The bytes of a sheet whose head was checked.
#[derive(Clone, Copy)]
struct Head<'a> {
    bytes: &'a [u8],
    ghost headed: { Headed bytes.now },
}

// An entry of such bytes, by its number.
#[derive(Clone, Copy)]
struct Entry<'a> {
    head: Head<'a>,
    number: usize,
    ghost few: { number < 2 ^ 32 },
}

// Whether the head is there, and both its numbers are in range.
fn check_head(bytes: &[u8]) -> Result<(), Refusal>
    ensures { result ≡ head_verdict bytes.now }
{
    let length = bytes.len();
    ensure(length >= 4, Refusal::SheetTruncated { length })?;
    ensure(
        (1..=2_048).contains(&u16::at(bytes, 0)),
        Refusal::SheetHead { byte: 0 },
    )?;
    ensure(
        (1..=64).contains(&u16::at(bytes, 2)),
        Refusal::SheetHead { byte: 2 },
    )
}

// Whether a score is in range.
fn score_within(score: i32) -> bool
    ensures { result ≡ score_within score }
{
    (-4_000_000..=4_000_000).contains(&score)
}

impl<'a> Head<'a> {
    // The head, once `check_head` refused nothing.
    fn new(bytes: &'a [u8]) -> Head<'a>
        requires { head_verdict bytes.now ≡ Ok tt }
        ensures { result.bytes.now ≡ bytes.now }
    {
        Head { bytes }
    }

    // How many columns there are.
    fn width(&self) -> usize
        ensures value { result ≡ width_of self.now.bytes.now }
        ensures within { (1 ≤ result) × (result ≤ 2048) }
    {
        usize::from(u16::at(self.bytes, 0))
    }

    // How many templates there are.
    fn count(&self) -> usize
        ensures value { result ≡ count_of self.now.bytes.now }
        ensures within { (1 ≤ result) × (result ≤ 64) }
    {
        usize::from(u16::at(self.bytes, 2))
    }

    // How many entries the file has: one for each template and column.
    fn entries(&self) -> usize
        ensures value { result ≡ entries self.now.bytes.now }
        ensures bound { result < 2 ^ 32 }
    {
        self.count() * self.width()
    }

    // Entry `j`.
    fn entry(&self, j: usize) -> Entry<'a>
        requires { j < 2 ^ 32 }
        ensures head { result.head ≡ self.now }
        ensures number { result.number ≡ j }
    {
        Entry {
            head: *self,
            number: j,
        }
    }

    // Whether the file ends where its last entry does.
    fn check_length(&self) -> Result<(), Refusal>
        ensures { result ≡ length_verdict self.now.bytes.now }
    {
        let length = self.bytes.len();
        ensure(
            length == self.entry(self.entries()).start(),
            Refusal::SheetLength { length },
        )
    }

    // Whether the setwidth of template `t` is in range.
    fn setwidth_lawful(&self, t: usize) -> bool
        requires { t < 65536 }
        ensures { result ≡ setwidth_lawful self.now.bytes.now t }
    {
        (1..=64).contains(&u8::at(self.bytes, 4 + t))
    }

    // Whether each setwidth is in range.
    fn check_setwidths(&self) -> Result<(), Refusal>
        ensures { result ≡ setwidths_verdict self.now.bytes.now }
    {
        ensure_each(
            self.count(),
            |t| self.setwidth_lawful(t),
            |t| Refusal::SheetSetwidth { byte: 4 + t },
        )
    }

    // Whether each node has its scores in range; an entry that is no node may hold anything. This check and the next are one
    // call each, which differ in the test and in the refusal: a function over both would be that call again.
    fn check_scores(&self) -> Result<(), Refusal>
        ensures { result ≡ scores_verdict self.now.bytes.now }
    {
        ensure_each(
            self.entries(),
            |j| !self.entry(j).is_node() || self.entry(j).scores_within(),
            |j| Refusal::SheetScore {
                byte: self.entry(j).start(),
            },
        )
    }

    // Whether no node has its exact score above its bound.
    fn check_orders(&self) -> Result<(), Refusal>
        ensures { result ≡ orders_verdict self.now.bytes.now }
    {
        ensure_each(
            self.entries(),
            |j| !self.entry(j).is_node() || self.entry(j).scores_ordered(),
            |j| Refusal::SheetOrder {
                byte: self.entry(j).start(),
            },
        )
    }
}

impl<'a> Entry<'a> {
    // Its first byte.
    fn start(&self) -> usize
        ensures value { result ≡ entry_start self.now.head.bytes.now self.now.number }
        ensures bound { result < 2 ^ 40 }
    {
        4 + self.head.count() + 8 * self.number
    }

    // Whether it is a node: its template ends on the line.
    fn is_node(&self) -> bool
        ensures { result ≡ entry_node self.now.head.bytes.now self.now.number }
    {
        let width = self.head.width();
        let template = self.number / width;
        let setwidth = usize::from(u8::at(self.head.bytes, 4 + template));
        self.number % width + setwidth <= width
    }

    // Its exact score.
    fn exact(&self) -> i32
        ensures { result ≡ exact_at self.now.head.bytes.now self.now.number }
    {
        i32::at(self.head.bytes, self.start())
    }

    // Its bound.
    fn bound(&self) -> i32
        ensures { result ≡ bound_at self.now.head.bytes.now self.now.number }
    {
        i32::at(self.head.bytes, self.start() + 4)
    }

    // Whether both its scores are in range.
    fn scores_within(&self) -> bool
        ensures { result ≡ scores_within self.now.head.bytes.now self.now.number }
    {
        score_within(self.exact()) && score_within(self.bound())
    }

    // Whether its exact score is not above its bound.
    fn scores_ordered(&self) -> bool
        ensures { result ≡ scores_ordered self.now.head.bytes.now self.now.number }
    {
        self.exact() <= self.bound()
    }
}

// The first refusal, in the order of the checks.
fn first_refusal(bytes: &[u8]) -> Result<(), Refusal>
    ensures { result ≡ checks_verdict bytes.now }
{
    check_head(bytes)?;
    let head = Head::new(bytes);
    head.check_length()?;
    head.check_setwidths()?;
    head.check_scores()?;
    head.check_orders()
}

// Does nothing: its contract is the laws that the verdict refuses nothing exactly if the layout holds, and
// that the first thing to fail a test is what it is called.
fn layout_law(bytes: &[u8])
    ensures named { checks_verdict bytes.now ≡ sheet_verdict bytes.now }
    ensures exactly { Exactly (sheet_verdict bytes.now) (SheetLaid bytes.now) }
    ensures first { (test : ℕ → Bool) (n : ℕ) → IsFirst test n (first_failing test 0 n) }
{}

// Whether the bytes are a sheet, or what refuses them.
pub fn check(bytes: &[u8]) -> Result<(), Refusal>
    ensures verdict { result ≡ sheet_verdict bytes.now }
    ensures exactly { Exactly result (SheetLaid bytes.now) }
    ensures first { (test : ℕ → Bool) (n : ℕ) → IsFirst test n (first_failing test 0 n) }
{
    layout_law(bytes);
    first_refusal(bytes)
}
