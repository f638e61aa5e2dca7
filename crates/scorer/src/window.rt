// A window: some columns of a line, from a first one on, as a line of their own.
ghost use Rattle.std.specs.Prelude.{◌≡◌, Ok};
ghost use Rattle.octets.specs.Absent.{present};
ghost use Rattle.scorer.specs.Meaning.{is_node};
ghost use Rattle.scorer.specs.Window.{window_fits, window_verdict, windowed, window_meaning, column_below, shifts_below};
ghost use Rattle.scorer.specs.WindowLaw.{window_lawful};

use super::{PlacedScorer, Scorer, ends_on_line};
use refusal::{Refusal, ensure};

// Some columns of the line below, from `first` on.
#[derive(Clone, Copy)]
pub struct Window<S> {
    below: S,
    first: usize,
    width: usize,
}

// Whether so many columns from `first` on lie on a line of `below` columns.
fn fits(below: usize, first: usize, width: usize) -> bool
    ensures { result ≡ window_fits below first width }
{
    width >= 1 && first <= below && width <= below - first
}

// Whether a window can stand over the scorer, or what refuses it.
pub fn check<S: Scorer>(below: &S, first: usize, width: usize) -> Result<(), Refusal>
    ensures { result ≡ window_verdict (S.Scorer.meaning below.now).width first width }
{
    ensure(
        fits(below.width(), first, width),
        Refusal::WindowBeyond { first },
    )
}

impl<S: Scorer> Window<S> {
    // The window over the scorer, once `check` refused nothing.
    pub fn new(below: S, first: usize, width: usize) -> Window<S>
        requires { window_verdict (S.Scorer.meaning below).width first width ≡ Ok tt }
        ensures below { result.below ≡ below }
        ensures first { result.first ≡ first }
        ensures width { result.width ≡ width }
        ensures meaning { window_meaning (S.Scorer.meaning result.below) result.first result.width ≡ windowed (S.Scorer.meaning below) first width }
    {
        Window {
            below,
            first,
            width,
        }
    }

    fn fits(&self) -> bool
        ensures { result ≡ window_fits (S.Scorer.meaning self.now.below).width self.now.first self.now.width }
    {
        fits(self.below.width(), self.first, self.width)
    }

    // The column below of a node of the window.
    fn column_below(&self, x: usize, t: usize) -> Option<usize>
        ensures { result ≡ present (is_node (window_meaning (S.Scorer.meaning self.now.below) self.now.first self.now.width) x t) (column_below (S.Scorer.meaning self.now.below).width self.now.first self.now.width x) }
    {
        let setwidth = self.below.setwidth(t)?;
        let width = self.width();
        if !ends_on_line(x, setwidth, width) {
            None
        } else if self.fits() {
            Some(self.first + x)
        } else {
            Some(x)
        }
    }
}

// The questions about a node differ in what they ask below alone: what they share is `column_below`, and a closure for each
// would be no shorter.
impl<S: Scorer> Scorer for Window<S> {
    ghost meaning = { λ s. window_meaning (S.Scorer.meaning s.below) s.first s.width };

    ghost lawful = { λ s. window_lawful (S.Scorer.meaning s.below) s.first s.width (S.Scorer.lawful s.below) };

    fn width(&self) -> usize {
        if self.fits() {
            self.width
        } else {
            self.below.width()
        }
    }

    fn count(&self) -> usize {
        self.below.count()
    }

    fn setwidth(&self, t: usize) -> Option<usize> {
        self.below.setwidth(t)
    }

    fn bound(&self, x: usize, t: usize) -> Option<i64> {
        let column = self.column_below(x, t)?;
        self.below.bound(column, t)
    }

    fn exact(&self, x: usize, t: usize) -> Option<i64> {
        let column = self.column_below(x, t)?;
        self.below.exact(column, t)
    }
}

impl<S: PlacedScorer> PlacedScorer for Window<S> {
    ghost shifts = { λ s. shifts_below (S.Scorer.meaning s.below).width s.first s.width (S.PlacedScorer.shifts s.below) };

    ghost within = { λ s x t. S.PlacedScorer.within s.below (column_below (S.Scorer.meaning s.below).width s.first s.width x) t };

    fn shift(&self, x: usize, t: usize) -> Option<i64> {
        let column = self.column_below(x, t)?;
        self.below.shift(column, t)
    }
}
