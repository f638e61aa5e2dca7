// Faces and photographs to score, and what is asked of their scorer.
ghost use Rattle.std.specs.Prelude.{◌≡◌, IfOk, Ok, OnOk};
ghost use Rattle.face.specs.Verdict.{face_verdict};

use checks::lawful;
use face::Face;
use photo::Photograph;
use printed::Printed;
use scorer::{Scorer, Window, check_window};
use std::alloc::Global;
use std::test::*;

// What a pixel of a level earns over black, and what it earns wherever it lies.
#[derive(Clone, Copy)]
pub(crate) struct Level(pub(crate) i16, pub(crate) i16);

// A template's setwidth, the width of its box, its prior, and a word for each level of each column.
#[derive(Clone, Copy)]
pub(crate) struct Shape<'a>(
    pub(crate) u8,
    pub(crate) u8,
    pub(crate) i16,
    pub(crate) &'a [u32],
);

// The bytes of a template, before its words.
fn template(shape: &Shape) -> [u8; 8] {
    let Shape(setwidth, width, prior, _) = *shape;
    let [low, high] = prior.to_le_bytes();
    [b'x', setwidth, width, 0, low, high, 0, 0]
}

// The bytes of a face.
pub(crate) fn face_bytes(
    heap: Global,
    height: u8,
    levels: &[Level],
    shapes: &[Shape],
) -> Result<Vec<u8>, Fail>
    ensures { IfOk result (λ v. face_verdict v.items ≡ Ok tt) }
{
    let count = u8::try_from(shapes.len())?;
    let depth = u8::try_from(levels.len())?;
    let mut bytes = [count, 0, depth, height].to_vec(heap)?;
    let weights = levels.iter().flat_map(|Level(gamma, beta)| [*gamma, *beta]);
    bytes.extend(weights.flat_map(|weight| weight.to_le_bytes()))?;
    bytes.extend(shapes.iter().flat_map(template))?;
    let words = shapes.iter().flat_map(|Shape(_, _, _, words)| words.iter());
    bytes.extend(words.flat_map(|word| word.to_le_bytes()))?;
    lawful(face::check(&bytes))?;
    Ok(bytes)
}

// The bits of a byte, from the left.
const BITS: [u8; 8] = [0x80, 0x40, 0x20, 0x10, 8, 4, 2, 1];

// The byte of eight pixels or fewer, `#` for black. Padding is black too.
fn packed(pixels: &[u8]) -> u8 {
    let white = pixels.iter().zip(BITS).filter(|(pixel, _)| **pixel != b'#');
    white.fold(0xFF, |byte, (_, bit)| byte ^ bit)
}

// The bytes of a photograph, drawn row by row.
pub(crate) fn photo_bytes(heap: Global, header: &[u8], rows: &[&[u8]]) -> Result<Vec<u8>, Fail> {
    let mut bytes = header.to_vec(heap)?;
    bytes.extend(rows.iter().flat_map(|row| row.chunks(8)).map(packed))?;
    Ok(bytes)
}

// Makes the scorer of a face and a photograph, and asks. Checking, making, gathering and tabulating lend to each other, so
// no function can hand the scorer out: what asks it is handed in.
pub(crate) fn on_line<F: FnOnce(&Printed) -> Result<(), Fail>>(
    heap: Global,
    face_bytes: &[u8],
    photo_bytes: &[u8],
    ask: F,
) -> Result<(), Fail>
    requires { F.IsAlwaysCallable ask }
    ensures { OnOk result (face_verdict face_bytes.now ≡ Ok tt) }
{
    lawful(face::check(face_bytes))?;
    let face = Face::new(face_bytes);
    let rows = face.height() + 4;
    let header = lawful(photo::check(photo_bytes, rows))?;
    let photograph = Photograph::new(photo_bytes, rows, header);
    let columns = printed::gather(heap, &face, &photograph)?;
    let tables = printed::tabulate(heap, &face)?;
    let scorer = Printed::new(face, photograph, &columns, &tables);
    ask(&scorer)
}

// The window over a scorer. Fails where it is refused.
pub(crate) fn window<S: Scorer + Copy>(
    below: S,
    first: usize,
    width: usize,
) -> Result<Window<S>, Fail>
    ensures { IfOk result (λ w. (w.below ≡ below) × ((w.first ≡ first) × (w.width ≡ width))) }
{
    lawful(check_window(&below, first, width))?;
    Ok(Window::new(below, first, width))
}
