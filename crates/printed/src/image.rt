// The columns of a photograph, gathered once for a line: each as a word, with how many of its pixels are black.
ghost use Rattle.std.specs.Prelude.{◌≡◌, ◌+◌, ◌*◌, ◌^◌, ◌<◌, ◌≤◌, count_ones, IfOk};
ghost use Rattle.matching.specs.Counts.{one_if};
ghost use Rattle.printed.specs.Gathered.{Gathered, image_of};
ghost use Rattle.printed.specs.Columns.{column_of};

use face::Face;
use photo::Photograph;
use std::alloc::{AllocError, Global};

// A column as a word, row 0 in the lowest bit, and how many of its pixels are black. The default one is white.
#[derive(Clone, Copy, Default)]
pub(crate) struct Column {
    pub(crate) word: u64,
    pub(crate) black: usize,
}

// The columns of a photograph.
#[derive(Drop)]
pub struct Columns {
    pub(crate) columns: Vec<Column>,
}

impl Column {
    // Column `x` of a photograph, in so many rows. A rule of the project: a `for` over the raster rows gathers black pixels,
    // as one over the columns of a box gathers those of a level (`Strip::pixels`).
    fn of(photo: &Photograph, x: usize, rows: usize) -> Column
        requires { rows ≤ 36 }
        ensures { result ≡ column_of (image_of photo.now) rows x }
    {
        let mut column = Column::default();
        for y in 0..rows {
            column = column.with_row(y, photo.black(x, y));
        }
        column
    }

    // The column with one row more, in bit `y`.
    fn with_row(self, y: usize, black: bool) -> Column
        requires { (y < 36) × ((self.word < 2 ^ y) × (self.black ≤ y)) }
        ensures word { result.word ≡ one_if black * 2 ^ y + self.word }
        ensures black { result.black ≡ self.black + one_if black }
    {
        Column {
            word: self.word + (u64::from(black) << y),
            black: self.black + usize::from(black),
        }
    }
}

// How many bits of a word are set.
pub(crate) fn ones_in(word: u64) -> usize
    ensures value { result ≡ count_ones word }
    ensures bound { result ≤ 64 }
{
    word.count_ones() as usize
}

// The columns of a photograph, in as many rows as a face needs.
pub fn gather(heap: Global, face: &Face, photo: &Photograph) -> Result<Columns, AllocError>
    ensures { IfOk result (λ columns. Gathered face.now.bytes.now photo.now columns) }
{
    let rows = face.height() + 4;
    let columns = (0..photo.width())
        .map(|x| Column::of(photo, x, rows))
        .collect(heap)?;
    Ok(Columns { columns })
}
