// Priors, what pixels earn wherever they lie, and the greatest and lowest scores that there are.
use super::asking::{Node, Placed, held_and_lent};
use super::making::{Level, Shape, face_bytes, on_line, photo_bytes};
use std::alloc::{AllocError, Global};
use std::test::*;

const SIGNS: [Level; 4] = [Level(7, -3), Level(-2, 4), Level(1, 1), Level(-1, -1)];

// A pixel of each level, by itself and side by side, and templates without a pixel or without a box.
const SHAPES: [Shape; 7] = [
    Shape(1, 1, -10, &[1, 0, 0, 0]),
    Shape(1, 1, -1, &[0, 1, 0, 0]),
    Shape(1, 1, -2, &[0, 0, 1, 0]),
    Shape(1, 1, 0, &[0, 0, 0, 1]),
    Shape(
        1,
        4,
        -100,
        &[1, 0, 0, 0, 0, 1, 0, 0, 0, 0, 1, 0, 0, 0, 0, 1],
    ),
    Shape(1, 1, -10_000, &[0, 0, 0, 0]),
    Shape(1, 0, -5, &[]),
];

// A white column, a black one, and two with one black pixel, in the last and in the first row.
const ROWS: [&[u8]; 5] = [b".#.#", b".#..", b".#..", b".#..", b".##."];

const NODES: [Node<Placed>; 29] = [
    Node(0, 0, Some((-13, -13, -2))),
    Node(1, 0, Some((-6, -6, -2))),
    Node(2, 0, Some((-6, -6, 2))),
    Node(3, 0, Some((-6, -6, -2))),
    Node(0, 1, Some((3, 3, -2))),
    Node(1, 1, Some((1, 1, -2))),
    Node(2, 1, Some((3, 3, -2))),
    Node(3, 1, Some((3, 3, -1))),
    Node(0, 2, Some((-1, -1, -2))),
    Node(1, 2, Some((0, 0, -2))),
    Node(2, 2, Some((0, 0, 2))),
    Node(3, 2, Some((0, 0, -2))),
    Node(0, 3, Some((-1, -1, -2))),
    Node(1, 3, Some((-2, -2, -2))),
    Node(2, 3, Some((-1, -1, -2))),
    Node(3, 3, Some((-1, -1, -1))),
    Node(0, 4, Some((-100, -100, 2))),
    Node(1, 4, Some((-91, -91, -2))),
    Node(2, 4, Some((-92, -92, 2))),
    Node(3, 4, Some((-92, -92, -2))),
    Node(0, 5, Some((-10_000, -10_000, -2))),
    Node(1, 5, Some((-10_000, -10_000, -2))),
    Node(2, 5, Some((-10_000, -10_000, -2))),
    Node(3, 5, Some((-10_000, -10_000, -2))),
    Node(0, 6, Some((-5, -5, -2))),
    Node(1, 6, Some((-5, -5, -2))),
    Node(2, 6, Some((-5, -5, -2))),
    Node(3, 6, Some((-5, -5, -2))),
    Node(4, 6, None),
];

// A prior counts once, and a pixel earns wherever it lies and once more over black, with either sign of both.
#[test]
fn priors_and_levels_of_either_sign(rt: HostRuntime) -> Result<(), Fail> {
    let face = face_bytes(rt.alloc(), 1, &SIGNS, &SHAPES)?;
    let photo = photo_bytes(rt.alloc(), b"P4 4 5\n", &ROWS)?;
    on_line(
        rt.alloc(),
        &face,
        &photo,
        |scorer| held_and_lent(scorer, 4, &[1, 1, 1, 1, 1, 1, 1], &NODES),
    )
}

// The words of a box of 32 columns and 32 rows with every pixel set, a quarter of them in each level.
fn full_box(heap: Global) -> Result<Vec<u32>, AllocError> {
    [0xFF, 0xFF00, 0xFF_0000, 0xFF00_0000].repeat(heap, 32)
}

// 32 black columns, then 8 white ones.
const HALF: [&[u8]; 36] = [b"################################........"; 36];

const GREATEST: [Node<Placed>; 9] = [
    Node(0, 0, Some((2_048_000, 2_048_000, -2))),
    Node(1, 0, Some((2_016_000, 2_016_000, -2))),
    Node(31, 0, Some((1_056_000, 1_056_000, -2))),
    Node(32, 0, Some((1_024_000, 1_024_000, -2))),
    Node(39, 0, Some((1_024_000, 1_024_000, -2))),
    Node(40, 0, None),
    Node(0, 1, Some((2_038_000, 2_038_000, -2))),
    Node(8, 1, Some((1_782_000, 1_782_000, -2))),
    Node(9, 1, None),
];

const LOWEST: [Node<Placed>; 9] = [
    Node(0, 0, Some((-2_048_000, -2_048_000, -2))),
    Node(1, 0, Some((-2_016_000, -2_016_000, -2))),
    Node(31, 0, Some((-1_056_000, -1_056_000, -2))),
    Node(32, 0, Some((-1_024_000, -1_024_000, -2))),
    Node(39, 0, Some((-1_024_000, -1_024_000, -2))),
    Node(40, 0, None),
    Node(0, 1, Some((-2_058_000, -2_058_000, -2))),
    Node(8, 1, Some((-1_802_000, -1_802_000, -2))),
    Node(9, 1, None),
];

// The largest box, with the greatest and the lowest of every number.
fn largest(heap: Global, level: i16, nodes: &[Node<Placed>]) -> Result<(), Fail> {
    let words = full_box(heap)?;
    let levels = [Level(level, level); 4];
    let shapes = [Shape(1, 32, 0, &words), Shape(32, 32, -10_000, &words)];
    let face = face_bytes(heap, 32, &levels, &shapes)?;
    let photo = photo_bytes(heap, b"P4 40 36\n", &HALF)?;
    on_line(
        heap,
        &face,
        &photo,
        |scorer| held_and_lent(scorer, 40, &[1, 32], nodes),
    )
}

// The largest box earns the greatest score over black, and loses the most there.
#[test]
fn the_greatest_and_the_lowest_score(rt: HostRuntime) -> Result<(), Fail> {
    largest(rt.alloc(), 1_000, &GREATEST)?;
    largest(rt.alloc(), -1_000, &LOWEST)
}
