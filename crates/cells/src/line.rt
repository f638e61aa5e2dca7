// The measures of a line: how many columns, and the setwidths of its templates.
ghost use Rattle.std.specs.Prelude.{◌≡◌, ℕ, ◌<◌, ◌≤◌, length, slice_index};

// A line's width and its templates' setwidths, as a scorer told them.
// An array and how much of it is in use: a line is Copy and takes no heap, and the kit's ArrayVec is not Copy.
#[derive(Clone, Copy)]
pub struct Line {
    width: usize,
    count: usize,
    setwidths: [usize; 64],
    ghost long: { length setwidths ≡ 64 },
    ghost wide: { (1 ≤ width) × (width ≤ 2048) },
    ghost counted: { (1 ≤ count) × (count ≤ 64) },
    ghost set: { (t : ℕ) → t < count → (1 ≤ slice_index setwidths t) × (slice_index setwidths t ≤ 64) },
}

mod measures;
