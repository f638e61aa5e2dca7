// What a sweep can combine: the laws, and the two combinings in use.
ghost use Rattle.std.specs.Prelude.{◌≡◌, ℕ};
ghost use Rattle.cells.specs.declared.cell.Cell.{Cell};
ghost use Rattle.paths.specs.Combining.{Rule, RuleLawful, reach, capped_totals};
ghost use Rattle.paths.proofs.Rules.{reach_lawful, capped_lawful};
ghost use Rattle.sweep.specs.Held.{held_answer, stored_answer, answer_kept, held_total, stored_total, total_kept};

use cells::Cell;

// A start, a none, an extending by a score and a joining, with their laws; and how a place's cell holds a value.
pub trait Combining: Copy {
    ghost rule: { Rule Self };

    ghost lawful: { RuleLawful Self rule };

    ghost held: { Cell → Self };

    ghost stored: { Self → ℕ → Cell };

    ghost kept: { (v : Self) (last : ℕ) → held (stored v last) ≡ v };

    // The value of the empty path.
    fn start() -> Self
        ensures { result ≡ rule.start };

    // The value where no path leads.
    fn none() -> Self
        ensures { result ≡ rule.none };

    // The value of a path that goes on by a node of this score.
    fn extend(self, score: i64) -> Self
        ensures { result ≡ rule.extend self score };

    // The value of the paths of both.
    fn join(self, other: Self) -> Self
        ensures { result ≡ rule.join self other };

    // Whether both are the same value. A member of its own, and no `PartialEq`: that would ask more of a type than this.
    fn same(self, other: Self) -> bool
        ensures { result ≡ rule.same self other };

    // The value that a place's cell holds. Not by From, since neither bool nor Option is this crate's to convert.
    fn load(cell: Cell) -> Self
        ensures { result ≡ held cell };

    // The cell of a place with this value and last template.
    fn store(self, last: usize) -> Cell
        ensures { result ≡ stored self last };
}

// Yes or no: does a path lead here?
impl Combining for bool {
    ghost rule = { reach };

    ghost lawful = { reach_lawful };

    ghost held = { held_answer };

    ghost stored = { stored_answer };

    ghost kept = { answer_kept };

    fn start() -> bool {
        true
    }

    fn none() -> bool {
        false
    }

    fn extend(self, _score: i64) -> bool {
        self
    }

    fn join(self, other: bool) -> bool {
        self || other
    }

    fn same(self, other: bool) -> bool {
        self == other
    }

    fn load(cell: Cell) -> bool {
        cell.total().is_some()
    }

    fn store(self, last: usize) -> Cell {
        Cell::of_place(self.then_some(0), last)
    }
}

// The greatest total of a path that leads here, if one does.
impl Combining for Option<i64> {
    ghost rule = { capped_totals };

    ghost lawful = { capped_lawful };

    ghost held = { held_total };

    ghost stored = { stored_total };

    ghost kept = { total_kept };

    fn start() -> Option<i64> {
        Some(0)
    }

    fn none() -> Option<i64> {
        None
    }

    fn extend(self, score: i64) -> Option<i64> {
        self.map(|total| total.saturating_add(score))
    }

    fn join(self, other: Option<i64>) -> Option<i64> {
        self.max(other)
    }

    fn same(self, other: Option<i64>) -> bool {
        self == other
    }

    fn load(cell: Cell) -> Option<i64> {
        cell.total()
    }

    fn store(self, last: usize) -> Cell {
        Cell::of_place(self, last)
    }
}
