// What a scorer tells of one line: the meaning on which everything above rests, and windows over it.
#![tactic(auto)]

ghost use Rattle.std.specs.Prelude.{◌≡◌, ℕ, ◌+◌, ℤ, nat_le};
ghost use Rattle.scorer.specs.Meaning.{Meaning, Lawful, setwidth_answer, at_node, ShiftWithin};

mod window;

pub use window::{Window, check as check_window};

// The five questions of one line. Each answers what the meaning says and changes nothing.
pub trait Scorer {
    ghost meaning: { Self → Meaning };

    ghost lawful: { (s : Self) → Lawful (meaning s) };

    // How many columns the line has.
    fn width(&self) -> usize
        ensures { result ≡ (meaning self.now).width };

    // How many templates there are.
    fn count(&self) -> usize
        ensures { result ≡ (meaning self.now).count };

    // How many columns template `t` takes up.
    fn setwidth(&self, t: usize) -> Option<usize>
        ensures { result ≡ setwidth_answer (meaning self.now) t };

    // What the exact score of a node is not above.
    fn bound(&self, x: usize, t: usize) -> Option<i64>
        ensures { result ≡ at_node (meaning self.now) (meaning self.now).bound x t };

    // The exact score of a node.
    fn exact(&self, x: usize, t: usize) -> Option<i64>
        ensures { result ≡ at_node (meaning self.now) (meaning self.now).exact x t };
}

// A scorer that also tells how far each node lies from the middle row.
pub trait PlacedScorer: Scorer {
    ghost shifts: { Self → ℕ → ℕ → ℤ };

    ghost within: { (s : Self) (x t : ℕ) → ShiftWithin (shifts s x t) };

    // The shift of a node, from -2 to 2.
    fn shift(&self, x: usize, t: usize) -> Option<i64>
        ensures { result ≡ at_node (Self.Scorer.meaning self.now) (shifts self.now) x t };
}

// Whether a template of so many columns that stands at column `x` ends on a line of `width` columns. By comparing: with
// `checked_sub` a sweep over cells takes an eighth as long again.
pub fn ends_on_line(x: usize, setwidth: usize, width: usize) -> bool
    ensures { result ≡ nat_le (x + setwidth) width }
{
    x <= width && setwidth <= width - x
}

// Each question is handed on under its own name: one function for all would have to be told which, by a closure for each.
impl<'a, S: Scorer> Scorer for &'a S {
    ghost meaning = { λ s. S.Scorer.meaning s.now };

    ghost lawful = { λ s. S.Scorer.lawful s.now };

    fn width(&self) -> usize {
        (**self).width()
    }

    fn count(&self) -> usize {
        (**self).count()
    }

    fn setwidth(&self, t: usize) -> Option<usize> {
        (**self).setwidth(t)
    }

    fn bound(&self, x: usize, t: usize) -> Option<i64> {
        (**self).bound(x, t)
    }

    fn exact(&self, x: usize, t: usize) -> Option<i64> {
        (**self).exact(x, t)
    }
}

impl<'a, S: PlacedScorer> PlacedScorer for &'a S {
    ghost shifts = { λ s. S.PlacedScorer.shifts s.now };

    ghost within = { λ s. S.PlacedScorer.within s.now };

    fn shift(&self, x: usize, t: usize) -> Option<i64> {
        (**self).shift(x, t)
    }
}
