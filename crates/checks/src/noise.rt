// Pseudo-random numbers, the same in each run.
ghost use Rattle.std.specs.Prelude.{◌≡◌, Some};
ghost use Rattle.checks.specs.Noise.{follower};

// A row of numbers, of which each follows from the one before.
#[derive(Drop)]
pub struct Noise {
    next: u32,
}

impl Noise {
    // The row that begins with a number.
    pub fn new(first: u32) -> Noise
        ensures { result.next ≡ first }
    {
        Noise { next: first }
    }

    // The next number of the row.
    pub fn number(&mut self) -> u32
        ensures number { result ≡ self.old.next }
        ensures row { self.new.next ≡ follower self.old.next }
    {
        let number = self.next;
        self.next = number.wrapping_mul(1_664_525).wrapping_add(1_013_904_223);
        number
    }
}

impl Iterator for Noise {
    type Item = u32;

    ghost next_gives = { λ s r t. (r ≡ Some s.next) × (t.next ≡ follower s.next) };

    // The next number: a row has no end.
    fn next(&mut self) -> Option<u32> {
        Some(self.number())
    }
}
