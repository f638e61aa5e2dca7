// The parts in use, in the order that the borrow check allows. The edits in .ci/borrow each turn one
// use wrong, and the check must refuse it.
#![tactic(auto)]

ghost use Rattle.std.specs.Prelude.{◌≡◌, is_ok, if◌then◌else◌, Ok, slice_set};
ghost use Rattle.photo.specs.Pixels.{black_at};
ghost use Rattle.photo.specs.Verdict.{photo_verdict};
ghost use Rattle.refusal.specs.First.{after};
ghost use Rattle.usage.specs.Bound.{ToldBound};

use face::Face;
use photo::Photograph;
use printed::{Printed, gather, tabulate};
use refusal::Refusal;
use scorer::Scorer;
use std::alloc::Global;

// Whether the first pixel of the first row is black. Then the first byte is wiped, so that the bytes
// are no photograph any more: nothing made over them is in use by then.
pub fn corner_then_wipe(bytes: &mut [u8], rows: usize) -> Result<bool, Refusal>
    ensures told { result ≡ after (photo_verdict bytes.old rows) (λ _. Ok (black_at bytes.old rows 0 0)) }
    ensures wiped { bytes.new ≡ (if is_ok result then slice_set bytes.old 0 0 else bytes.old) }
{
    let header = photo::check(bytes, rows)?;
    let photograph = Photograph::new(bytes, rows, header);
    let corner = photograph.black(0, 0);
    wipe_first(bytes);
    Ok(corner)
}

// The bound of the first template at the first column, by the printed scorer. Then the first byte of the photograph is
// wiped: no scorer over it is in use by then.
pub fn bound_then_wipe(heap: Global, face: Face, bytes: &mut [u8]) -> Result<Option<i64>, Refusal>
    ensures told { ToldBound face.entry.bytes.now bytes.old result }
    ensures wiped { bytes.new ≡ (if is_ok result then slice_set bytes.old 0 0 else bytes.old) }
{
    let rows = face.height() + 4;
    let header = photo::check(bytes, rows)?;
    let photograph = Photograph::new(bytes, rows, header);
    let columns = gather(heap, &face, &photograph)?;
    let tables = tabulate(heap, &face)?;
    let scorer = Printed::new(face, photograph, &columns, &tables);
    let bound = scorer.bound(0, 0);
    wipe_first(bytes);
    Ok(bound)
}

fn wipe_first(bytes: &mut [u8])
    ensures { bytes.new ≡ slice_set bytes.old 0 0 }
{
    if let Some(first) = bytes.first_mut() {
        *first = 0;
    }
}
