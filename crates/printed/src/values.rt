// The values of a box column for each number of black pixels, computed level by level.
ghost use Rattle.std.specs.Prelude.{◌≡◌, ◌*◌, ◌^◌, ◌<◌, ◌≤◌, pos, ◌*ℤ◌};
ghost use Rattle.matching.proofs.Ranges.{Within};
ghost use Rattle.printed.specs.Values.{with_level, best_with_level, laid_on, Small};

use std::array;

// What a column can earn, for each number of black pixels from 0 to 36.
pub(crate) type Values = [i64; 37];

// A level of a box column: what a pixel earns over black, how many it has, how many rows are not its own, and what the
// levels before it can earn.
#[derive(Clone, Copy)]
pub(crate) struct Level<'v> {
    pub(crate) weight: i16,
    pub(crate) count: usize,
    pub(crate) room: usize,
    pub(crate) before: &'v Values,
    ghost small: { Small before.now },
}

// What `k` pixels earn over black.
pub(crate) fn earned(weight: i16, k: usize) -> i64
    requires { k < 2 ^ 32 }
    ensures value { result ≡ weight *ℤ pos k }
    ensures range { Within (32768 * k) result }
{
    i64::from(weight) * (k as i64)
}

impl<'v> Level<'v> {
    // What is earned with `k` of the black pixels on the level, and the rest of them on the levels before it.
    fn with(&self, black: usize, k: usize) -> i64
        requires { (black < 37) × (k ≤ black) }
        ensures { result ≡ with_level self.now.before.now self.now.weight black k }
    {
        earned(self.weight, k) + self.before[black - k]
    }

    // The most that is earned with so many black pixels on the level and those before it.
    fn best_with(&self, black: usize) -> i64
        requires { black < 37 }
        ensures { result ≡ best_with_level self.now.before.now self.now.weight self.now.count self.now.room black }
    {
        let fewest = black.saturating_sub(self.room);
        let spread = self.count.min(black).saturating_sub(fewest);
        (0..spread + 1)
            .map(|i| self.with(black, fewest + i))
            .max()
            .unwrap()
    }

    // What the level and those before it can earn, for each number of black pixels.
    pub(crate) fn lay(&self) -> Values
        ensures { result ≡ laid_on self.now.before.now self.now.weight self.now.count self.now.room }
    {
        array::from_fn(|black| self.best_with(black))
    }
}
