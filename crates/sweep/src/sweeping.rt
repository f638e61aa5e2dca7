// The sweep of a whole line, for any combining.
ghost use Rattle.std.specs.Prelude.{◌≡◌, ◌+◌, ◌≤◌, Ok, length};
ghost use Rattle.cells.specs.Lattice.{relaid};
ghost use Rattle.cells.specs.Layout.{cells_verdict};
ghost use Rattle.sweep.specs.Swept.{swept_to, swept, swept_on, SweepJoins};

use super::{Combining, work_place};
use cells::{Cell, Lattice, Line};

// Sweeps the line: each place gets the join over all paths that lead there of the start extended along the path.
pub fn sweep<C: Combining>(lattice: &mut Lattice)
    requires { cells_verdict lattice.old.line.now (length lattice.old.cells.now) ≡ Ok tt }
    ensures cells { lattice.new ≡ relaid lattice.old (swept C.Combining.rule C.Combining.stored lattice.old.line.now lattice.old.cells.now) }
    ensures joins { SweepJoins C.Combining.rule C.Combining.held C.Combining.stored lattice.old.line.now lattice.old.cells.now }
{
    joins::<C>(lattice);
    sweep_to::<C>(lattice, lattice.line.width() + 1);
}

// The same for who has the line and its cells apart.
pub fn sweep_cells<C: Combining>(line: &Line, cells: &mut [Cell])
    requires { cells_verdict line.now (length cells.old) ≡ Ok tt }
    ensures cells { cells.new ≡ swept C.Combining.rule C.Combining.stored line.now cells.old }
    ensures joins { SweepJoins C.Combining.rule C.Combining.held C.Combining.stored line.now cells.old }
{
    sweep::<C>(&mut Lattice::new(line, cells));
}

// Sweeps the places below `end`.
fn sweep_to<C: Combining>(lattice: &mut Lattice, end: usize)
    requires { (cells_verdict lattice.old.line.now (length lattice.old.cells.now) ≡ Ok tt) × (end ≤ lattice.old.line.now.width + 1) }
    ensures { lattice.new ≡ relaid lattice.old (swept_to C.Combining.rule C.Combining.stored lattice.old.line.now lattice.old.cells.now end) }
{
    for p in 0..end {
        sweep_place::<C>(lattice, p);
    }
}

// Sweeps the next place.
fn sweep_place<C: Combining>(lattice: &mut Lattice, p: usize)
    ensures { lattice.new ≡ relaid lattice.old (swept_on C.Combining.rule C.Combining.held C.Combining.stored lattice.old.line.now lattice.old.cells.now p) }
{
    if p == 0 {
        lattice.set_place(0, C::start().store(0));
    } else {
        work_place::<C>(lattice, p);
    }
}

// Does nothing: its contract is what a sweep gives each place.
fn joins<C: Combining>(lattice: &Lattice)
    requires { cells_verdict lattice.now.line.now (length lattice.now.cells.now) ≡ Ok tt }
    ensures { SweepJoins C.Combining.rule C.Combining.held C.Combining.stored lattice.now.line.now lattice.now.cells.now }
{}
