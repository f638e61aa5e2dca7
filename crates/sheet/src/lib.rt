// A sheet: the scorer whose every score was written down beforehand, held as the bytes of its file.
#![tactic(auto)]

ghost use Rattle.std.specs.Prelude.{◌≡◌, ◌+◌, ◌*◌, ◌^◌, ◌<◌, ◌≤◌, true, IfSome, is_ok, Ok};
ghost use Rattle.octets.specs.Absent.{present};
ghost use Rattle.octets.specs.Numbers.{i32_at};
ghost use Rattle.scorer.specs.Meaning.{is_node};
ghost use Rattle.sheet_file.specs.Fields.{width as width_of, count as count_of, node_entry, entry_start};
ghost use Rattle.sheet_file.specs.Laid.{SheetLaid};
ghost use Rattle.sheet_file.specs.Meaning.{sheet_meaning};
ghost use Rattle.sheet_file.specs.Verdict.{sheet_verdict};
ghost use Rattle.sheet_file.proofs.Lawful.{sheet_lawful};

use octets::Number;
use scorer::{Scorer, ends_on_line};

// A sheet that was checked.
#[derive(Clone, Copy)]
pub struct Sheet<'a> {
    bytes: &'a [u8],
    ghost lawful: { is_ok (sheet_verdict bytes.now) ≡ true },
}

impl<'a> Sheet<'a> {
    // The sheet that the bytes hold, once `check` refused nothing.
    pub fn new(bytes: &'a [u8]) -> Sheet<'a>
        requires { sheet_verdict bytes.now ≡ Ok tt }
        ensures { result.bytes.now ≡ bytes.now }
    {
        Sheet { bytes }
    }

    // The first byte of a node's entry.
    fn entry_at(&self, x: usize, t: usize) -> Option<usize>
        ensures value { result ≡ present (is_node (sheet_meaning self.now.bytes.now) x t) (entry_start self.now.bytes.now (node_entry self.now.bytes.now x t)) }
        ensures bound { IfSome result (λ at. at < 2 ^ 40) }
    {
        let setwidth = self.setwidth(t)?;
        let width = self.width();
        if !ends_on_line(x, setwidth, width) {
            return None;
        }
        laid(self.bytes);
        few_entries(self.bytes, t);
        Some(4 + self.count() + 8 * (t * width + x))
    }

    // The score that stands `offset` bytes after the first of a node's entry.
    fn score_at(&self, x: usize, t: usize, offset: usize) -> Option<i64>
        requires { offset < 8 }
        ensures { result ≡ present (is_node (sheet_meaning self.now.bytes.now) x t) (i32_at self.now.bytes.now (entry_start self.now.bytes.now (node_entry self.now.bytes.now x t) + offset)) }
    {
        let at = self.entry_at(x, t)?;
        Some(i64::from(i32::at(self.bytes, at + offset)))
    }
}

// Where the file has its numbers is one line each here and in the file's check, which keeps its head and entries to itself.
impl<'a> Scorer for Sheet<'a> {
    ghost meaning = { λ s. sheet_meaning s.bytes.now };

    ghost lawful = { λ s. sheet_lawful s.bytes.now s.lawful };

    fn width(&self) -> usize {
        usize::from(u16::at(self.bytes, 0))
    }

    fn count(&self) -> usize {
        usize::from(u16::at(self.bytes, 2))
    }

    fn setwidth(&self, t: usize) -> Option<usize> {
        laid(self.bytes);
        if t < self.count() {
            Some(usize::from(u8::at(self.bytes, 4 + t)))
        } else {
            None
        }
    }

    fn bound(&self, x: usize, t: usize) -> Option<i64> {
        self.score_at(x, t, 4)
    }

    fn exact(&self, x: usize, t: usize) -> Option<i64> {
        self.score_at(x, t, 0)
    }
}

// Does nothing: its contract is the law that a sheet which is refused nothing has its layout.
fn laid(bytes: &[u8])
    requires { is_ok (sheet_verdict bytes.now) ≡ true }
    ensures { SheetLaid bytes.now }
{}

// Does nothing: its contract is the law that the entries before those of a template are few.
fn few_entries(bytes: &[u8], t: usize)
    requires { (SheetLaid bytes.now) × (t < count_of bytes.now) }
    ensures { t * width_of bytes.now ≤ 64 * 2048 }
{}
