// The best row for a box, and the score there.
ghost use Rattle.std.specs.Prelude.{◌≡◌, ◌≤◌, pos, ◌+ℤ◌, neg_ℤ};

#[derive(Clone, Copy)]
pub(crate) struct Best {
    pub(crate) score: i64,
    pub(crate) row: usize,
}

impl Best {
    // How far below the middle the box lies.
    pub(crate) fn shift(&self) -> i64
        requires { self.now.row ≤ 4 }
        ensures { result ≡ pos self.now.row +ℤ neg_ℤ (pos 2) }
    {
        (self.row as i64) - 2
    }
}
