// The files of a line, read no further than each may be long.
ghost use Rattle.std.specs.Prelude.{◌+◌, ◌≤◌, IfOk, vec_len, MatchResult};
ghost use Rattle.listing.specs.Files.{Unread, Told};

use super::line::{Line, read_line};
use refusal::Refusal;
use std::fs::File;
use std::io;
use std::io::Read;

// The refusal of a file that could not be read; want of memory is told as such.
fn unread(error: io::Error, unreadable: Refusal) -> Refusal
    ensures { Unread unreadable result }
{
    if error.kind() == io::ErrorKind::OutOfMemory {
        Refusal::OutOfMemory
    } else {
        unreadable
    }
}

// The bytes at the front of a file, one past the limit at most.
fn front_of(rt: &HostRuntime, path: &str, limit: usize) -> io::Result<Vec<u8>>
    requires { limit ≤ 65536 }
    ensures { IfOk result (λ v. vec_len v ≤ limit + 1) }
{
    let most = limit + 1;
    let mut bytes = Vec::new(rt.alloc());
    File::open(rt, path)?
        .take(most as u64)
        .read_to_end(&mut bytes)?;
    bytes.truncate(most);
    Ok(bytes)
}

// The bytes of a file, or its refusal where it cannot be read.
fn read_file(
    rt: &HostRuntime,
    path: &str,
    limit: usize,
    unreadable: Refusal,
) -> Result<Vec<u8>, Refusal>
    requires { limit ≤ 65536 }
    ensures { MatchResult result (λ v. vec_len v ≤ limit + 1) (λ e. Unread unreadable e) }
{
    front_of(rt, path, limit).map_err(|error| unread(error, unreadable))
}

// The line of two files. The face is opened whole before the photograph is read.
pub fn list_files(rt: &HostRuntime, face_path: &str, photo_path: &str) -> Result<Line, Refusal>
    ensures { Told result }
{
    let face = read_file(rt, face_path, face::LARGEST, Refusal::FaceUnreadable)?;
    face::check(&face)?;
    let photo = read_file(
        rt,
        photo_path,
        photo::LARGEST,
        Refusal::PhotographUnreadable,
    )?;
    read_line(rt.alloc(), &face, &photo)
}
