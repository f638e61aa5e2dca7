// Working a place: what every template brings to it is joined.
ghost use Rattle.std.specs.Prelude.{◌≡◌, if◌then◌else◌};
ghost use Rattle.cells.specs.Lattice.{relaid};
ghost use Rattle.sweep.specs.Swept.{brought, worked, worked_last, worked_cells};

use super::Combining;
use cells::Lattice;

// The join so far, and the last template that changed it.
// That is 0 where none did, and no Option, since it is 0 that the rule of the sweep gives the cell there.
#[derive(Clone, Copy)]
struct Joined<C> {
    value: C,
    last: usize,
}

impl<C: Combining> Joined<C> {
    // The join of nothing.
    fn nothing() -> Joined<C>
        ensures value { result.value ≡ C.Combining.rule.none }
        ensures last { result.last ≡ 0 }
    {
        Joined {
            value: C::none(),
            last: 0,
        }
    }

    // The join with what one more template brings.
    fn with(self, brought: C, t: usize) -> Joined<C>
        ensures value { result.value ≡ C.Combining.rule.join self.value brought }
        ensures last { result.last ≡ (if C.Combining.rule.same (C.Combining.rule.join self.value brought) self.value then self.last else t) }
    {
        let value = self.value.join(brought);
        let last = if value.same(self.value) { self.last } else { t };
        Joined { value, last }
    }
}

// What a template brings to a place. By comparing before it subtracts: with `checked_sub` a sweep takes an eighth as long again.
fn brought<C: Combining>(lattice: &Lattice, p: usize, t: usize) -> C
    ensures { result ≡ brought C.Combining.rule C.Combining.held lattice.now.line.now lattice.now.cells.now p t }
{
    let setwidth = lattice.line.columns(t);
    if setwidth > p {
        return C::none();
    }
    let x = p - setwidth;
    C::load(lattice.place(x)).extend(lattice.node(x, t).score)
}

// The join of what all templates bring to a place.
fn join_all<C: Combining>(lattice: &Lattice, p: usize) -> Joined<C>
    ensures value { result.value ≡ worked C.Combining.rule C.Combining.held lattice.now.line.now lattice.now.cells.now p }
    ensures last { result.last ≡ worked_last C.Combining.rule C.Combining.held lattice.now.line.now lattice.now.cells.now p }
{
    (0..lattice.line.count()).fold(Joined::nothing(), |sofar, t| {
        sofar.with(brought(lattice, p, t), t)
    })
}

// Works a place: its cell gets the join of what all templates bring, and the last template that changed it.
pub fn work_place<C: Combining>(lattice: &mut Lattice, p: usize)
    ensures { lattice.new ≡ relaid lattice.old (worked_cells C.Combining.rule C.Combining.held C.Combining.stored lattice.old.line.now lattice.old.cells.now p) }
{
    let joined = join_all::<C>(lattice, p);
    lattice.set_place(p, joined.value.store(joined.last));
}
