// A face: the character templates by which a line is read, held as the bytes of its file.
#![tactic(auto)]

ghost use Rattle.std.specs.Prelude.{◌≡◌, ℕ, ◌+◌, ◌*◌, ◌^◌, ◌<◌, ◌≤◌, true, Option, IfSome, is_ok, Ok, nat_lt};
ghost use Rattle.std.specs.Option.{option_map};
ghost use Rattle.std.specs.List.{between};
ghost use Rattle.octets.specs.Absent.{present};
ghost use Rattle.face.specs.Fields.{count as count_of, levels as levels_of, height as height_of, gamma as gamma_of, write_white, beta as beta_of, name as name_of, setwidth as setwidth_of, box_width, prior as prior_of, columns_before as columns_before_of, columns_start, column_start, columns_there, level_start, template_start};
ghost use Rattle.face.specs.Laid.{FaceLaid};
ghost use Rattle.face.specs.Verdict.{face_verdict};

mod checks;

pub use checks::{LARGEST, check};
use checks::{
    column_start, columns_before, columns_size, count, height, level_start, levels, template_start,
};
use octets::Number;

// A face that was checked.
#[derive(Clone, Copy)]
pub struct Face<'a> {
    bytes: &'a [u8],
    ghost lawful: { is_ok (face_verdict bytes.now) ≡ true },
}

impl<'a> Face<'a> {
    // The face that the bytes hold, once `check` refused nothing.
    pub fn new(bytes: &'a [u8]) -> Face<'a>
        requires { face_verdict bytes.now ≡ Ok tt }
        ensures { result.bytes.now ≡ bytes.now }
    {
        Face { bytes }
    }

    // How many templates there are.
    pub fn count(&self) -> usize
        ensures value { result ≡ count_of self.now.bytes.now }
        ensures within { (1 ≤ result) × (result ≤ 64) }
    {
        laid(self.bytes);
        count(self.bytes)
    }

    // How many levels a template has.
    pub fn levels(&self) -> usize
        ensures value { result ≡ levels_of self.now.bytes.now }
        ensures within { (1 ≤ result) × (result ≤ 4) }
    {
        laid(self.bytes);
        levels(self.bytes)
    }

    // How many rows a box has.
    pub fn height(&self) -> usize
        ensures value { result ≡ height_of self.now.bytes.now }
        ensures within { (1 ≤ result) × (result ≤ 32) }
    {
        laid(self.bytes);
        height(self.bytes)
    }

    // What a pixel of the level earns over black.
    pub fn gamma(&self, level: usize) -> Option<i16>
        ensures { result ≡ present (nat_lt level (levels_of self.now.bytes.now)) (gamma_of self.now.bytes.now level) }
    {
        self.number(self.level_at(level), 0)
    }

    // Whether the level's pixels are to be white: a pixel over black costs. One that earns 0 there does not count.
    pub fn write_white(&self, level: usize) -> Option<bool>
        ensures { result ≡ present (nat_lt level (levels_of self.now.bytes.now)) (write_white self.now.bytes.now level) }
    {
        self.gamma(level).map(|gamma| gamma < 0)
    }

    // What a pixel of the level earns wherever it lies.
    pub fn beta(&self, level: usize) -> Option<i16>
        ensures { result ≡ present (nat_lt level (levels_of self.now.bytes.now)) (beta_of self.now.bytes.now level) }
    {
        self.number(self.level_at(level), 2)
    }

    // The character that template `t` stands for.
    pub fn name(&self, t: usize) -> Option<u8>
        ensures { result ≡ present (nat_lt t (count_of self.now.bytes.now)) (name_of self.now.bytes.now t) }
    {
        self.number(self.template_at(t), 0)
    }

    // How many columns template `t` takes up on a line.
    pub fn setwidth(&self, t: usize) -> Option<u8>
        ensures { result ≡ present (nat_lt t (count_of self.now.bytes.now)) (setwidth_of self.now.bytes.now t) }
    {
        self.number(self.template_at(t), 1)
    }

    // How many columns the box of template `t` has.
    pub fn box_width(&self, t: usize) -> Option<u8>
        ensures { result ≡ present (nat_lt t (count_of self.now.bytes.now)) (box_width self.now.bytes.now t) }
    {
        self.number(self.template_at(t), 2)
    }

    // What template `t` costs wherever it stands.
    pub fn prior(&self, t: usize) -> Option<i16>
        ensures { result ≡ present (nat_lt t (count_of self.now.bytes.now)) (prior_of self.now.bytes.now t) }
    {
        self.number(self.template_at(t), 4)
    }

    // The columns of template `t`, one word for each level of a column, as they lie in the face's own bytes. By where they begin
    // and how many bytes they are: by `columns_between` it takes up to two and a half times as long.
    pub fn columns(&self, t: usize) -> Option<&'a [u8]>
        ensures { option_map (λ x. x.now) result ≡ present (nat_lt t (count_of self.now.bytes.now)) (between (columns_start self.now.bytes.now t) (columns_start self.now.bytes.now (t + 1)) self.now.bytes.now) }
    {
        let width = usize::from(self.box_width(t)?);
        laid(self.bytes);
        columns_law(self.bytes, t);
        let start = column_start(self.bytes, columns_before(self.bytes, t));
        let end = start + columns_size(self.bytes, width);
        Some(&self.bytes[start..end])
    }

    // The columns from `first` to before `end`, where columns are counted over all templates, as they lie in the face's
    // own bytes. By comparing: by `get` of both ends it takes twice as long where they are not there.
    pub fn columns_between(&self, first: usize, end: usize) -> Option<&'a [u8]>
        ensures { option_map (λ x. x.now) result ≡ present (columns_there self.now.bytes.now first end) (between (column_start self.now.bytes.now first) (column_start self.now.bytes.now end) self.now.bytes.now) }
    {
        laid(self.bytes);
        if first > end || end > self.bytes.len() {
            return None;
        }
        let end = column_start(self.bytes, end);
        if end > self.bytes.len() {
            return None;
        }
        Some(&self.bytes[column_start(self.bytes, first)..end])
    }

    // The number that stands `offset` bytes after a first one.
    fn number<N: Number>(&self, start: Option<usize>, offset: usize) -> Option<N>
        requires { (IfSome start (λ at. at < 2 ^ 20)) × (offset < 8) }
        ensures { result ≡ option_map (λ at. N.number_at self.now.bytes.now (at + offset)) start }
    {
        start.map(|at| N::at(self.bytes, at + offset))
    }

    // The first byte of a level.
    fn level_at(&self, level: usize) -> Option<usize>
        ensures value { result ≡ present (nat_lt level (levels_of self.now.bytes.now)) (level_start level) }
        ensures bound { IfSome result (λ at. at < 2 ^ 20) }
    {
        (level < self.levels()).then(|| level_start(level))
    }

    // The first byte of a template.
    fn template_at(&self, t: usize) -> Option<usize>
        ensures value { result ≡ present (nat_lt t (count_of self.now.bytes.now)) (template_start self.now.bytes.now t) }
        ensures bound { IfSome result (λ at. (at < 2 ^ 20) × (t < count_of self.now.bytes.now)) }
    {
        (t < self.count()).then(|| template_start(self.bytes, t))
    }
}

// Does nothing: its contract is the law that a face which is refused nothing has its layout.
fn laid(bytes: &[u8])
    requires { is_ok (face_verdict bytes.now) ≡ true }
    ensures { FaceLaid bytes.now }
{}

// Does nothing: its contract is the law that the columns of a template follow those of the templates before it, and are there.
fn columns_law(bytes: &[u8], t: usize)
    requires { (is_ok (face_verdict bytes.now) ≡ true) × (t < count_of bytes.now) }
    ensures ends { columns_start bytes.now (t + 1) ≡ columns_start bytes.now t + 4 * (levels_of bytes.now * box_width bytes.now t) }
    ensures follow { columns_before_of bytes.now (t + 1) ≡ columns_before_of bytes.now t + box_width bytes.now t }
    ensures there { columns_there bytes.now (columns_before_of bytes.now t) (columns_before_of bytes.now (t + 1)) ≡ true }
{}
