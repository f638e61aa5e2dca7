// Where things lie in the cells of a line.
ghost use Rattle.std.specs.Prelude.{◌≡◌, ◌≤◌};
ghost use Rattle.cells.specs.Layout.{cell_index, needed, cells_verdict, node_index, place_index};
ghost use Rattle.cells.specs.Line.{templates};

use super::Line;
use refusal::{Refusal, ensure};
use scorer::ends_on_line;

impl Line {
    // How many cells the line needs.
    #[tactic(auto, using(crate::proofs::Rows::few_rows))]
    pub fn needed(&self) -> usize
        ensures { result ≡ needed self.now }
    {
        (self.count() + 1) * (self.width() + 1)
    }

    // Whether so many cells are enough, or what refuses them.
    pub fn check(&self, cells: usize) -> Result<(), Refusal>
        ensures { result ≡ cells_verdict self.now cells }
    {
        let needed = self.needed();
        ensure(needed <= cells, Refusal::CellsTooFew { needed })
    }

    // Where the cell of a node lies.
    #[tactic(auto, unfolding(crate::specs::Layout::node_index))]
    pub(super) fn node_index(&self, x: usize, t: usize) -> Option<usize>
        ensures { result ≡ node_index self.now x t }
    {
        let setwidth = self.setwidth(t)?;
        let width = self.width();
        if !ends_on_line(x, setwidth, width) {
            return None;
        }
        Some(self.cell_index(x, t))
    }

    // Where the cell of a place lies.
    #[tactic(auto, unfolding(crate::specs::Layout::place_index))]
    pub(super) fn place_index(&self, p: usize) -> Option<usize>
        ensures { result ≡ place_index self.now p }
    {
        if p > self.width() {
            return None;
        }
        Some(self.cell_index(p, self.count()))
    }

    // The cell at column `x` of a row: those of the templates, and then that of the places.
    // By counting: cells are lent as one flat stretch, so its rows are no slices of their own.
    #[tactic(auto, using(crate::proofs::Rows::few_rows))]
    fn cell_index(&self, x: usize, row: usize) -> usize
        requires row { row ≤ templates self.now }
        requires column { x ≤ self.now.width }
        ensures { result ≡ cell_index self.now x row }
    {
        row * (self.width() + 1) + x
    }
}
