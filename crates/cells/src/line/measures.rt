// What a line tells of itself.
ghost use Rattle.std.specs.Prelude.{◌≡◌, ℕ, ◌<◌, ◌≤◌, length, slice_index, take};
ghost use Rattle.cells.specs.Line.{widths, templates, line_setwidth};
ghost use Rattle.paths.specs.Paths.{setwidths_of};
ghost use Rattle.scorer.specs.Meaning.{Lawful};

use super::Line;
use scorer::Scorer;

impl Line {
    // The line that a scorer stands for.
    #[tactic(auto, unfolding(crate::specs::Line::widths))]
    pub fn of<S: Scorer>(scorer: &S) -> Line
        ensures width { result.width ≡ (S.Scorer.meaning scorer.now).width }
        ensures count { templates result ≡ (S.Scorer.meaning scorer.now).count }
        ensures setwidths { widths result ≡ setwidths_of (S.Scorer.meaning scorer.now) }
    {
        lawful(scorer);
        Line {
            width: scorer.width(),
            count: scorer.count(),
            setwidths: setwidths(scorer),
        }
    }

    // How many columns the line has.
    pub fn width(&self) -> usize
        ensures { result ≡ self.now.width }
    {
        self.width
    }

    // How many templates there are.
    pub fn count(&self) -> usize
        ensures { result ≡ templates self.now }
    {
        self.count
    }

    // How many columns each template takes up, by its number.
    #[tactic(auto, unfolding(crate::specs::Line::widths))]
    pub fn setwidths(&self) -> &[usize]
        ensures { result.now ≡ widths self.now }
    {
        &self.setwidths[..self.count]
    }

    // How many columns template `t` takes up.
    #[tactic(auto, using(crate::proofs::Widths::length_widths))]
    pub fn setwidth(&self, t: usize) -> Option<usize>
        ensures { result ≡ line_setwidth self.now t }
    {
        self.setwidths().get(t).copied()
    }

    // The same, and 0 where there is no such template: paths are defined by a list that has 0 past its end.
    #[tactic(auto, using(crate::proofs::Widths::length_widths, std::proofs::lemmas::List::get_or_past))]
    pub fn columns(&self, t: usize) -> usize
        ensures { result ≡ slice_index (widths self.now) t }
    {
        self.setwidth(t).unwrap_or(0)
    }
}

// The setwidths of a scorer's templates, by their numbers, and 0 past the last. By a loop: `array::from_fn` asks, or tests, 64
// numbers for a line of one template, and took two and a half times as long.
fn setwidths<S: Scorer>(scorer: &S) -> [usize; 64]
    ensures told { take (S.Scorer.meaning scorer.now).count result ≡ setwidths_of (S.Scorer.meaning scorer.now) }
    ensures long { length result ≡ 64 }
    ensures set { (t : ℕ) → t < (S.Scorer.meaning scorer.now).count → (1 ≤ slice_index result t) × (slice_index result t ≤ 64) }
{
    lawful(scorer);
    let mut setwidths = [0; 64];
    for t in 0..scorer.count() {
        setwidths[t] = setwidth_of(scorer, t);
    }
    setwidths
}

// The setwidth of one of a scorer's templates.
fn setwidth_of<S: Scorer>(scorer: &S, t: usize) -> usize
    requires { t < (S.Scorer.meaning scorer.now).count }
    ensures { result ≡ (S.Scorer.meaning scorer.now).setwidth t }
{
    scorer.setwidth(t).unwrap_or(0)
}

// Does nothing: its contract is that a scorer's meaning is lawful.
fn lawful<S: Scorer>(scorer: &S)
    ensures { Lawful (S.Scorer.meaning scorer.now) }
{}
