// What stands in the cells of a line, and how it is written there.
ghost use Rattle.std.specs.Prelude.{◌≡◌};
ghost use Rattle.cells.specs.Layout.{needed, cell_at, with_cell, node_cell, place_cell, with_node, with_place, blanked};

use super::{Cell, Line};

// For who has the line and the cells apart, and for reading cells that others read too.
impl Line {
    // The cell of a node, or a blank one where there is no node.
    pub fn node(&self, cells: &[Cell], x: usize, t: usize) -> Cell
        ensures { result ≡ node_cell self.now cells.now x t }
    {
        read(cells, self.node_index(x, t))
    }

    // The cell of a place, or a blank one where there is no place.
    pub fn place(&self, cells: &[Cell], p: usize) -> Cell
        ensures { result ≡ place_cell self.now cells.now p }
    {
        read(cells, self.place_index(p))
    }

    // Writes the cell of a node.
    pub fn set_node(&self, cells: &mut [Cell], x: usize, t: usize, cell: Cell)
        ensures { cells.new ≡ with_node self.now cells.old x t cell }
    {
        write(cells, self.node_index(x, t), cell);
    }

    // Writes the cell of a place.
    pub fn set_place(&self, cells: &mut [Cell], p: usize, cell: Cell)
        ensures { cells.new ≡ with_place self.now cells.old p cell }
    {
        write(cells, self.place_index(p), cell);
    }

    // Makes the cells that the line uses blank.
    pub fn blank(&self, cells: &mut [Cell])
        ensures { cells.new ≡ blanked (needed self.now) cells.old }
    {
        clear(cells, self.needed());
    }
}

// The cell at an index, or a blank one where there is none.
#[tactic(auto, unfolding(crate::specs::Layout::cell_at))]
fn read(cells: &[Cell], at: Option<usize>) -> Cell
    ensures { result ≡ cell_at cells.now at }
{
    at.and_then(|i| cells.get(i)).copied().unwrap_or_default()
}

// Writes the cell at an index; where there is none nothing is written.
// By `cells[i]`: the proof of what a write through `get_mut` leaves did not close.
#[tactic(auto, using(std::proofs::lemmas::List::set_past), unfolding(crate::specs::Layout::with_cell))]
fn write(cells: &mut [Cell], at: Option<usize>, cell: Cell)
    ensures { cells.new ≡ with_cell cells.old at cell }
{
    match at {
        Some(i) if i < cells.len() => cells[i] = cell,
        _ => {}
    }
}

// Makes the first n cells blank, all of them if they are fewer.
fn clear(cells: &mut [Cell], n: usize)
    ensures { cells.new ≡ blanked n cells.old }
{
    let end = n.min(cells.len());
    cells[..end].fill(Cell::blank());
}
