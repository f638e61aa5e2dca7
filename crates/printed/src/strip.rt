// Columns of a face, as its bytes hold them: what their pixels earn, and what they can earn.
ghost use Rattle.std.specs.Prelude.{◌≡◌, ◌+◌, ◌<◌, ◌≤◌, pos, ◌*ℤ◌, bit_and, count_ones, IfOk};
ghost use Rattle.face.specs.Fields.{count, levels, gamma, beta, columns_before};
ghost use Rattle.face.specs.Laid.{column_word};
ghost use Rattle.matching.specs.Counts.{sum};
ghost use Rattle.matching.specs.Printed.{ink};
ghost use Rattle.printed.specs.Tables.{weights_of, values_of, column_gain, strip_words, strip_pixels, strip_worth, strip_values};

use super::image::ones_in;
use super::values::{Level, Values, earned};
use face::Face;
use octets::Number;
use std::alloc::{AllocError, Global};

// A face, with what a pixel of each of its levels earns over black.
#[derive(Clone, Copy)]
pub(crate) struct Weighed<'f, 'w> {
    pub(crate) face: Face<'f>,
    pub(crate) weights: &'w [i16],
    ghost weighed: { weights.now ≡ weights_of face.bytes.now },
}

// Columns of a face that follow each other: the words of each, one for each level. The width stands beside the words, since
// these are the bytes of the face's file: chunks of them would still have to be made into numbers, and give no plainer form.
#[derive(Clone, Copy)]
pub(crate) struct Strip<'f, 'w> {
    pub(crate) weighed: Weighed<'f, 'w>,
    pub(crate) words: &'f [u8],
    pub(crate) first: usize,
    pub(crate) width: usize,
    ghost there: { first + width ≤ columns_before weighed.face.bytes.now (count weighed.face.bytes.now) },
    ghost lies: { words.now ≡ strip_words weighed.face.bytes.now first width },
}

impl<'f, 'w> Weighed<'f, 'w> {
    // How many levels there are.
    fn levels(&self) -> usize
        ensures value { result ≡ levels self.now.face.bytes.now }
        ensures within { (1 ≤ result) × (result ≤ 4) }
    {
        self.weights.len()
    }

    // The columns from `first` on, so many, where columns are counted over all templates.
    pub(crate) fn strip(&self, first: usize, width: usize) -> Strip<'f, 'w>
        requires { first + width ≤ columns_before self.now.face.bytes.now (count self.now.face.bytes.now) }
        ensures face { result.weighed ≡ self.now }
        ensures first { result.first ≡ first }
        ensures width { result.width ≡ width }
    {
        Strip {
            weighed: *self,
            words: self.face.columns_between(first, first + width).unwrap(),
            first,
            width,
        }
    }
}

// A column and a level are below the strip's own in each clause: the range of an index that a caller gives, and no fact that a
// type could hold more plainly.
impl<'f, 'w> Strip<'f, 'w> {
    // The word of a level in a column.
    fn word(&self, c: usize, l: usize) -> u64
        requires { (c < self.now.width) × (l < levels self.now.weighed.face.bytes.now) }
        ensures { result ≡ column_word self.now.weighed.face.bytes.now (self.now.first + c) l }
    {
        u64::from(u32::at(self.words, 4 * (self.weighed.levels() * c + l)))
    }

    // How many pixels a level has in a column.
    fn ink(&self, c: usize, l: usize) -> usize
        requires { (c < self.now.width) × (l < levels self.now.weighed.face.bytes.now) }
        ensures value { result ≡ ink self.now.weighed.face.bytes.now (self.now.first + c) l }
        ensures bound { result ≤ 64 }
    {
        ones_in(self.word(c, l))
    }

    // How many pixels a level has.
    fn pixels(&self, l: usize) -> usize
        requires { l < levels self.now.weighed.face.bytes.now }
        ensures { result ≡ strip_pixels self.now.weighed.face.bytes.now self.now.first self.now.width l }
    {
        let mut pixels = 0;
        for c in 0..self.width {
            pixels += self.ink(c, l);
        }
        pixels
    }

    // What the pixels of a level earn wherever they lie.
    fn level_worth(&self, l: usize) -> i64
        requires { l < levels self.now.weighed.face.bytes.now }
        ensures { result ≡ beta self.now.weighed.face.bytes.now l *ℤ pos (strip_pixels self.now.weighed.face.bytes.now self.now.first self.now.width l) }
    {
        earned(self.weighed.face.beta(l).unwrap(), self.pixels(l))
    }

    // What all pixels earn wherever they lie.
    pub(crate) fn worth(&self) -> i64
        ensures { result ≡ strip_worth self.now.weighed.face.bytes.now self.now.first self.now.width }
    {
        (0..self.weighed.levels())
            .map(|l| self.level_worth(l))
            .sum()
    }

    // How many pixels all levels have in a column.
    fn column_ink(&self, c: usize) -> usize
        requires { c < self.now.width }
        ensures { result ≡ sum (levels self.now.weighed.face.bytes.now) (ink self.now.weighed.face.bytes.now (self.now.first + c)) }
    {
        (0..self.weighed.levels()).map(|l| self.ink(c, l)).sum()
    }

    // What a column can earn at most, for each number of black pixels under it.
    pub(crate) fn values(&self, c: usize) -> Values
        requires { c < self.now.width }
        ensures { result ≡ values_of self.now.weighed.face.bytes.now (self.now.first + c) }
    {
        let rows = self.weighed.face.height() + 4;
        let mut room = rows.saturating_sub(self.column_ink(c));
        let mut table = [0; 37];
        // A loop: a fold over both the table and the room would need a struct of its own, and is no plainer.
        for (l, weight) in self.weighed.weights.iter().enumerate() {
            let level = Level {
                weight: *weight,
                count: self.ink(c, l),
                room,
                before: &table,
            };
            room += level.count;
            table = level.lay();
        }
        table
    }

    // What each column can earn at most.
    pub(crate) fn list_values(&self, heap: Global) -> Result<Vec<Values>, AllocError>
        ensures { IfOk result (λ v. v.items ≡ strip_values self.now.weighed.face.bytes.now self.now.first self.now.width) }
    {
        (0..self.width)
            .map(
                |c: usize|
                    requires { c < self.now.width }
                    ensures { result ≡ values_of self.entry.now.weighed.face.bytes.now (self.entry.now.first + c) }
                { self.values(c) },
            )
            .collect(heap)
    }

    // What a level earns in a column over a column of the image.
    fn level_gain(&self, c: usize, l: usize, column: u64) -> i64
        requires { (c < self.now.width) × (l < levels self.now.weighed.face.bytes.now) }
        ensures { result ≡ gamma self.now.weighed.face.bytes.now l *ℤ pos (count_ones (bit_and (column_word self.now.weighed.face.bytes.now (self.now.first + c) l) column)) }
    {
        earned(self.weighed.weights[l], ones_in(self.word(c, l) & column))
    }

    // What a column earns over a column of the image.
    pub(crate) fn column_gain(&self, c: usize, column: u64) -> i64
        requires { c < self.now.width }
        ensures { result ≡ column_gain self.now.weighed.face.bytes.now (self.now.first + c) column }
    {
        (0..self.weighed.levels())
            .map(|l| self.level_gain(c, l, column))
            .sum()
    }
}
