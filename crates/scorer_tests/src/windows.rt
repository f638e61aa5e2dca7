// Windows over a printed scorer and over a sheet, held and lent, and windows over windows.
use super::asking::{Node, Placed, answers};
use super::making::{Level, Shape, face_bytes, on_line, photo_bytes, window};
use checks::{check_eq, told};
use printed::Printed;
use scorer::check_window;
use std::alloc::Global;
use std::test::*;

const SHAPES: [Shape; 3] = [
    Shape(1, 1, 0, &[1, 2]),
    Shape(3, 1, -5, &[1, 2]),
    Shape(6, 1, -9, &[1, 2]),
];

// No two of the columns have the same answers.
const ROWS: [&[u8]; 6] = [
    b".#.#...", b".###...", b".####.#", b".####.#", b".###..#", b"###...#",
];

const LINE: [Node<Placed>; 18] = [
    Node(0, 0, Some((3, 0, -2))),
    Node(1, 0, Some((1, 1, -2))),
    Node(2, 0, Some((3, 1, -1))),
    Node(3, 0, Some((3, 3, 2))),
    Node(4, 0, Some((3, 3, 1))),
    Node(5, 0, Some((0, 0, -2))),
    Node(6, 0, Some((3, 1, 0))),
    Node(7, 0, None),
    Node(0, 1, Some((-2, -5, -2))),
    Node(1, 1, Some((-4, -4, -2))),
    Node(2, 1, Some((-2, -4, -1))),
    Node(3, 1, Some((-2, -2, 2))),
    Node(4, 1, Some((-2, -2, 1))),
    Node(5, 1, None),
    Node(0, 2, Some((-6, -9, -2))),
    Node(1, 2, Some((-8, -8, -2))),
    Node(2, 2, None),
    Node(0, 3, None),
];

// The window from column 1 of width 5. Template 1 has a node below in column 4, and template 2 in column 1.
const MIDDLE: [Node<Placed>; 17] = [
    Node(0, 0, Some((1, 1, -2))),
    Node(1, 0, Some((3, 1, -1))),
    Node(2, 0, Some((3, 3, 2))),
    Node(3, 0, Some((3, 3, 1))),
    Node(4, 0, Some((0, 0, -2))),
    Node(5, 0, None),
    Node(6, 0, None),
    Node(usize::MAX, 0, None),
    Node(0, 1, Some((-4, -4, -2))),
    Node(1, 1, Some((-2, -4, -1))),
    Node(2, 1, Some((-2, -2, 2))),
    Node(3, 1, None),
    Node(usize::MAX - 1, 1, None),
    Node(0, 2, None),
    Node(0, 3, None),
    Node(0, usize::MAX, None),
    Node(usize::MAX, usize::MAX, None),
];

// The window from column 1 of width 3 over that window: it begins in column 2 of the line.
const INNER: [Node<Placed>; 9] = [
    Node(0, 0, Some((3, 1, -1))),
    Node(1, 0, Some((3, 3, 2))),
    Node(2, 0, Some((3, 3, 1))),
    Node(3, 0, None),
    Node(0, 1, Some((-2, -4, -1))),
    Node(1, 1, None),
    Node(2, 1, None),
    Node(0, 2, None),
    Node(0, 3, None),
];

// The window over the last column alone.
const LAST: [Node<Placed>; 4] = [
    Node(0, 0, Some((3, 1, 0))),
    Node(1, 0, None),
    Node(0, 1, None),
    Node(0, 2, None),
];

// Asks windows over the scorer itself.
fn ask_windows(scorer: &Printed) -> Result<(), Fail> {
    let setwidths = [1, 3, 6];
    let middle = window(*scorer, 1, 5)?;
    answers(&middle, 5, &setwidths, &MIDDLE)?;
    let inner = window(middle, 1, 3)?;
    answers(&inner, 3, &setwidths, &INNER)
}

// Asks windows over the lent scorer.
fn ask_lent_windows(scorer: &Printed) -> Result<(), Fail> {
    let setwidths = [1, 3, 6];
    answers(scorer, 7, &setwidths, &LINE)?;
    let whole = window(scorer, 0, 7)?;
    answers(&whole, 7, &setwidths, &LINE)?;
    let last = window(scorer, 6, 1)?;
    answers(&last, 1, &setwidths, &LAST)?;
    let middle = window(scorer, 1, 5)?;
    answers(&middle, 5, &setwidths, &MIDDLE)?;
    let inner = window(&middle, 1, 3)?;
    answers(&inner, 3, &setwidths, &INNER)?;
    answers(&&inner, 3, &setwidths, &INNER)
}

// A first column and a width, and what is refused of that window over seven columns, by number and place.
struct Span(usize, usize, Option<(u8, usize)>);

const SPANS: [Span; 19] = [
    Span(0, 7, None),
    Span(0, 1, None),
    Span(3, 4, None),
    Span(6, 1, None),
    Span(0, 0, Some((41, 0))),
    Span(3, 0, Some((41, 3))),
    Span(7, 0, Some((41, 7))),
    Span(7, 1, Some((41, 7))),
    Span(8, 1, Some((41, 8))),
    Span(0, 8, Some((41, 0))),
    Span(1, 7, Some((41, 1))),
    Span(6, 2, Some((41, 6))),
    Span(usize::MAX, 0, Some((41, usize::MAX))),
    Span(usize::MAX, 1, Some((41, usize::MAX))),
    Span(usize::MAX, 2, Some((41, usize::MAX))),
    Span(0, usize::MAX, Some((41, 0))),
    Span(1, usize::MAX, Some((41, 1))),
    Span(2, usize::MAX, Some((41, 2))),
    Span(usize::MAX, usize::MAX, Some((41, usize::MAX))),
];

// The same over a window of five columns.
const SPANS_OF_MIDDLE: [Span; 5] = [
    Span(0, 5, None),
    Span(4, 1, None),
    Span(0, 6, Some((41, 0))),
    Span(1, 5, Some((41, 1))),
    Span(5, 1, Some((41, 5))),
];

// Asks what is refused over the scorer, over the lent scorer, and over a window.
fn ask_spans(scorer: &Printed) -> Result<(), Fail> {
    for Span(first, width, refused) in &SPANS {
        check_eq(told(check_window(scorer, *first, *width))?, *refused)?;
        check_eq(told(check_window(&scorer, *first, *width))?, *refused)?;
    }

    // Over a window its own width counts, and not the width below.
    let middle = window(scorer, 1, 5)?;
    for Span(first, width, refused) in &SPANS_OF_MIDDLE {
        check_eq(told(check_window(&middle, *first, *width))?, *refused)?;
    }
    Ok(())
}

// Asks of the line of seven columns.
fn on_seven<F: FnOnce(&Printed) -> Result<(), Fail>>(heap: Global, ask: F) -> Result<(), Fail>
    requires { F.IsAlwaysCallable ask }
{
    let face = face_bytes(heap, 2, &[Level(3, 0), Level(-2, 0)], &SHAPES)?;
    let photo = photo_bytes(heap, b"P4 7 6\n", &ROWS)?;
    on_line(heap, &face, &photo, ask)
}

// A window tells what is told below, of its own columns alone, and so does a window over it.
#[test]
fn windows_over_a_printed_scorer(rt: HostRuntime) -> Result<(), Fail> {
    on_seven(rt.alloc(), ask_windows)
}

// The same holds where what is below is lent.
#[test]
fn windows_over_a_lent_scorer(rt: HostRuntime) -> Result<(), Fail> {
    on_seven(rt.alloc(), ask_lent_windows)
}

// A window has one column or more, and ends where the line below does or before.
#[test]
fn windows_refused(rt: HostRuntime) -> Result<(), Fail> {
    on_seven(rt.alloc(), ask_spans)
}
