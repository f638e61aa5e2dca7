// A line and the cells that are lent for it: what stands there, and how it is written.
ghost use Rattle.std.specs.Prelude.{◌≡◌};
ghost use Rattle.cells.specs.Lattice.{relaid};
ghost use Rattle.cells.specs.Layout.{needed, node_cell, place_cell, with_node, with_place, blanked};

use super::{Cell, Line};

// A line and its cells. Where they are fewer than the line needs, what lies past them reads blank, and writes there are lost.
#[derive(Drop)]
pub struct Lattice<'l, 'c> {
    pub line: &'l Line,
    cells: &'c mut [Cell],
}

// A node and a place keep two methods each, alike but for the index: one over an enum of the two is no shorter.
impl<'l, 'c> Lattice<'l, 'c> {
    // The cells laid out for the line.
    pub fn new(line: &'l Line, cells: &'c mut [Cell]) -> Lattice<'l, 'c>
        ensures line { result.line.now ≡ line.now }
        ensures same_cells { result.cells.ghost_name ≡ cells.entry.ghost_name }
        ensures cells { result.cells.now ≡ cells.old }
    {
        Lattice { line, cells }
    }

    // The cell of a node, or a blank one where there is no node.
    pub fn node(&self, x: usize, t: usize) -> Cell
        ensures { result ≡ node_cell self.now.line.now self.now.cells.now x t }
    {
        self.line.node(self.cells, x, t)
    }

    // The cell of a place, or a blank one where there is no place.
    pub fn place(&self, p: usize) -> Cell
        ensures { result ≡ place_cell self.now.line.now self.now.cells.now p }
    {
        self.line.place(self.cells, p)
    }

    // Writes the cell of a node.
    pub fn set_node(&mut self, x: usize, t: usize, cell: Cell)
        ensures { self.new ≡ relaid self.old (with_node self.old.line.now self.old.cells.now x t cell) }
    {
        self.line.set_node(self.cells, x, t, cell);
    }

    // Writes the cell of a place.
    pub fn set_place(&mut self, p: usize, cell: Cell)
        ensures { self.new ≡ relaid self.old (with_place self.old.line.now self.old.cells.now p cell) }
    {
        self.line.set_place(self.cells, p, cell);
    }

    // Makes the cells that the line uses blank.
    pub fn blank(&mut self)
        ensures { self.new ≡ relaid self.old (blanked (needed self.old.line.now) self.old.cells.now) }
    {
        self.line.blank(self.cells);
    }
}
