// A sheet to put faults into.
ghost use Rattle.std.specs.Prelude.{◌≤◌, OnOk};

use checks::{check, lawful};
use sheet::Sheet;
use std::test::Fail;

pub(crate) type Bytes = [u8; 54];

// Three columns and two templates, of setwidths 1 and 2. Its entries begin at 6, 14, 22, 30, 38 and 46, and the
// last is no node.
pub(crate) const SAMPLE: Bytes =
    *b"\x03\x00\x02\x00\x01\x02\xFF\xFF\xFF\xFF\x00\x00\x00\x00\x00\xF7\xC2\xFF\x00\x09\x3D\x00\x02\x01\x00\x00\x03\x02\x01\x00\x05\x00\x00\x00\x05\x00\x00\x00\xD4\xFE\xFF\xFF\xD5\xFE\xFF\xFF\xFF\xFF\xFF\x7F\x00\x00\x00\x80";

// The sheet that the bytes hold. Fails where they are refused.
pub(crate) fn opened(bytes: &[u8]) -> Result<Sheet<'_>, Fail> {
    lawful(sheet_file::check(bytes))?;
    Ok(Sheet::new(bytes))
}

// The sheet with other scores in the entry that begins at `at`.
pub(crate) fn with_scores(
    mut sheet: Bytes,
    at: usize,
    exact: i32,
    bound: i32,
) -> Result<Bytes, Fail>
    ensures { OnOk result (at ≤ 46) }
{
    check(at <= 46)?;
    sheet[at..at + 4].copy_from_slice(&exact.to_le_bytes());
    sheet[at + 4..at + 8].copy_from_slice(&bound.to_le_bytes());
    Ok(sheet)
}
