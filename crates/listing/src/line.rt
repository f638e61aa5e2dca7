// What a listing tells of a line, or the refusal.
ghost use Rattle.std.specs.Prelude.{◌≡◌, Some, IfOk, Result};
ghost use Rattle.face.specs.Fields.{count};
ghost use Rattle.printed.specs.Gathered.{width_of};
ghost use Rattle.refusal.specs.declared.Refusal.{Refusal};
ghost use Rattle.listing.specs.declared.line.Line.{Line};
ghost use Rattle.listing.specs.Answer.{line_answer, Answers};
ghost use Rattle.listing.specs.Laid.{ListsExactly};
ghost use Rattle.listing.specs.Printed.{printed};

use face::Face;
use photo::Photograph;
use printed::{Printed, gather, tabulate};
use refusal::Refusal;
use scorer::Scorer;
use std::alloc::{AllocError, Global};
use std::fmt;

// A line that can be read: its columns, and the templates to read it by.
#[derive(Clone, Copy, Debug, PartialEq, Eq)]
pub struct Line {
    pub width: usize,
    pub count: usize,
}

// What a program prints of a line.
impl fmt::Display for Line {
    ghost output = { λ line. Some (printed line) };

    fn fmt<W: fmt::Write>(&self, f: &mut fmt::Formatter<W>) -> fmt::Result {
        let Line { width, count } = *self;
        write!(f, "LINE {width} {count}")
    }
}

// The line of a photograph under a face, or the first refusal: of the face, then of the photograph. Where both are
// taken, memory may still be wanting.
pub fn read_line(heap: Global, face: &[u8], photo: &[u8]) -> Result<Line, Refusal>
    ensures value { Answers (line_answer face.now photo.now) result }
    ensures exactly { ListsExactly face.now photo.now result }
{
    listing_law(face, photo);
    face::check(face)?;
    let face = Face::new(face);
    let rows = face.height() + 4;
    let header = photo::check(photo, rows)?;
    let photograph = Photograph::new(photo, rows, header);
    let line = scored_line(heap, face, photograph)?;
    Ok(line)
}

// The line that the printed scorer of a face and a photograph tells. What is gathered and tabulated is lent to the scorer, so
// no function can hand one out, and whoever needs one makes it in these steps.
fn scored_line(heap: Global, face: Face, photograph: Photograph) -> Result<Line, AllocError>
    ensures { IfOk result (λ line. line ≡ record { width = width_of photograph.entry; count = count face.entry.bytes.now }) }
{
    let columns = gather(heap, &face, &photograph)?;
    let tables = tabulate(heap, &face)?;
    let scorer = Printed::new(face, photograph, &columns, &tables);
    Ok(Line {
        width: scorer.width(),
        count: scorer.count(),
    })
}

// Does nothing: its contract is the law that a line is told exactly if face and photograph are laid out so.
fn listing_law(face: &[u8], photo: &[u8])
    ensures { (r : Result Line Refusal) → Answers (line_answer face.now photo.now) r → ListsExactly face.now photo.now r }
{}
