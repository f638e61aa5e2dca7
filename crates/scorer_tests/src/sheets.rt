// Windows over a sheet, and a sheet that is lent.
ghost use Rattle.std.specs.Prelude.{OnOk};
ghost use Rattle.scorer_tests.specs.Told.{Measured};

use super::asking::{Node, Scored, measures, scores};
use super::making::window;
use checks::{lawful, told};
use scorer::{Scorer, check_window};
use sheet::Sheet;
use std::alloc::Global;
use std::test::*;

// Exact score and bound of each column of two templates, of setwidths 1 and 2. The last is no node.
const ENTRIES: [(i32, i32); 8] = [
    (-1, 0),
    (-2, 5),
    (3, 3),
    (4, 9),
    (10, 11),
    (20, 4_000_000),
    (-4_000_000, 33),
    (i32::MAX, i32::MIN),
];

// The bytes of a sheet of four columns.
fn sheet_bytes(heap: Global) -> Result<Vec<u8>, Fail> {
    let mut bytes = [4, 0, 2, 0, 1, 2].to_vec(heap)?;
    let scores = ENTRIES.iter().flat_map(|(exact, bound)| [*exact, *bound]);
    bytes.extend(scores.flat_map(|score| score.to_le_bytes()))?;
    Ok(bytes)
}

// The sheet that the bytes hold. Fails where they are refused. The tests of the sheet have the same two lines: a crate for
// both would rest on the sheets for these alone.
fn opened(bytes: &[u8]) -> Result<Sheet<'_>, Fail> {
    lawful(sheet_file::check(bytes))?;
    Ok(Sheet::new(bytes))
}

const LINE: [Node<Scored>; 12] = [
    Node(0, 0, Some((0, -1))),
    Node(1, 0, Some((5, -2))),
    Node(2, 0, Some((3, 3))),
    Node(3, 0, Some((9, 4))),
    Node(4, 0, None),
    Node(0, 1, Some((11, 10))),
    Node(1, 1, Some((4_000_000, 20))),
    Node(2, 1, Some((33, -4_000_000))),
    Node(3, 1, None),
    Node(0, 2, None),
    Node(usize::MAX, 0, None),
    Node(0, usize::MAX, None),
];

// The window from column 1 of width 2. Template 1 has a node below in column 2.
const MIDDLE: [Node<Scored>; 9] = [
    Node(0, 0, Some((5, -2))),
    Node(1, 0, Some((3, 3))),
    Node(2, 0, None),
    Node(0, 1, Some((4_000_000, 20))),
    Node(1, 1, None),
    Node(2, 1, None),
    Node(0, 2, None),
    Node(usize::MAX, 1, None),
    Node(usize::MAX, usize::MAX, None),
];

// The window from column 1 of width 1 over that window.
const INNER: [Node<Scored>; 3] = [Node(0, 0, Some((3, 3))), Node(1, 0, None), Node(0, 1, None)];

// Compares all that a scorer with the two templates tells.
fn answers<S: Scorer>(scorer: &S, width: usize, nodes: &[Node<Scored>]) -> Result<(), Fail>
    ensures { OnOk result (Measured (S.Scorer.meaning scorer.now) width 2) }
{
    measures(scorer, width, &[1, 2])?;
    scores(scorer, nodes)
}

// A sheet that is lent tells what the sheet tells.
#[test]
fn a_lent_sheet(rt: HostRuntime) -> Result<(), Fail> {
    let bytes = sheet_bytes(rt.alloc())?;
    let sheet = opened(&bytes)?;
    answers(&&sheet, 4, &LINE)?;
    answers(&&&sheet, 4, &LINE)
}

// A window over a sheet tells what the sheet tells of its columns, and refuses what ends past the sheet.
#[test]
fn a_window_over_a_sheet(rt: HostRuntime) -> Result<(), Fail> {
    let bytes = sheet_bytes(rt.alloc())?;
    let sheet = opened(&bytes)?;
    let middle = window(sheet, 1, 2)?;
    answers(&middle, 2, &MIDDLE)?;
    let inner = window(middle, 1, 1)?;
    answers(&inner, 1, &INNER)?;
    assert_eq!(rt; told(check_window(&sheet, 3, 2))?, Some((41, 3)));
    Ok(())
}

// A window over a lent sheet does the same.
#[test]
fn a_window_over_a_lent_sheet(rt: HostRuntime) -> Result<(), Fail> {
    let bytes = sheet_bytes(rt.alloc())?;
    let sheet = opened(&bytes)?;
    let middle = window(&sheet, 1, 2)?;
    answers(&middle, 2, &MIDDLE)
}
