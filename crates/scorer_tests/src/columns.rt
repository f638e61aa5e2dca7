// Boxes over columns with more and fewer black pixels, and over the right end of a photograph.
use super::asking::{Node, Placed, held_and_lent};
use super::making::{Level, Shape, face_bytes, on_line, photo_bytes};
use std::test::*;

// A pixel that earns 3 over black, and one below it that costs 2 there.
const TWO_LEVELS: [Level; 2] = [Level(3, 0), Level(-2, 0)];

const TWO_PIXELS: [Shape; 1] = [Shape(1, 1, 0, &[1, 2])];

// Columns with 0, 1, 4, 5 and 6 black pixels.
const RISING: [&[u8]; 6] = [b"..###", b"..#.#", b"...##", b"..###", b".####", b"...##"];

// In the third column two rows reach the score, and the higher one is told.
const RISING_NODES: [Node<Placed>; 6] = [
    Node(0, 0, Some((0, 0, -2))),
    Node(1, 0, Some((3, 3, 2))),
    Node(2, 0, Some((3, 3, -1))),
    Node(3, 0, Some((3, 3, -2))),
    Node(4, 0, Some((1, 1, -2))),
    Node(5, 0, None),
];

// Columns where each shift is the best once, and where the bound is not reached.
const SHIFTED: [&[u8]; 6] = [
    b".#.#...", b"..##...", b"..#####", b"..###.#", b"..##..#", b"#.#...#",
];

const SHIFTED_NODES: [Node<Placed>; 8] = [
    Node(0, 0, Some((3, 0, -2))),
    Node(1, 0, Some((3, 3, -2))),
    Node(2, 0, Some((3, 1, -1))),
    Node(3, 0, Some((3, 3, 2))),
    Node(4, 0, Some((3, 3, 1))),
    Node(5, 0, Some((3, 3, 0))),
    Node(6, 0, Some((3, 1, 0))),
    Node(7, 0, None),
];

// The bound of a column depends on how many of its pixels are black, and the exact score on which.
#[test]
fn a_pixel_to_earn_and_one_to_keep_white(rt: HostRuntime) -> Result<(), Fail> {
    let face = face_bytes(rt.alloc(), 2, &TWO_LEVELS, &TWO_PIXELS)?;
    let photo = photo_bytes(rt.alloc(), b"P4 5 6\n", &RISING)?;
    on_line(
        rt.alloc(),
        &face,
        &photo,
        |scorer| held_and_lent(scorer, 5, &[1], &RISING_NODES),
    )?;
    let face = face_bytes(rt.alloc(), 2, &TWO_LEVELS, &TWO_PIXELS)?;
    let photo = photo_bytes(rt.alloc(), b"P4 7 6\n", &SHIFTED)?;
    on_line(
        rt.alloc(),
        &face,
        &photo,
        |scorer| held_and_lent(scorer, 7, &[1], &SHIFTED_NODES),
    )
}

const FOUR_LEVELS: [Level; 4] = [Level(-1, 0), Level(5, 0), Level(-3, 0), Level(2, 0)];

// One pixel of each level; two to earn above two to keep white; four to keep white.
const FOUR_PIXELS: [Shape; 3] = [
    Shape(1, 1, 0, &[1, 2, 4, 8]),
    Shape(1, 1, 0, &[0, 3, 12, 0]),
    Shape(1, 1, 0, &[0, 0, 15, 0]),
];

// Columns with 0 to 8 black pixels.
const STAIR: [&[u8]; 8] = [
    b".########",
    b"..#######",
    b"...######",
    b"....#####",
    b".....####",
    b"......###",
    b".......##",
    b"........#",
];

const STAIR_NODES: [Node<Placed>; 28] = [
    Node(0, 0, Some((0, 0, -2))),
    Node(1, 0, Some((5, 0, -1))),
    Node(2, 0, Some((7, 4, -2))),
    Node(3, 0, Some((7, 4, -1))),
    Node(4, 0, Some((7, 4, 0))),
    Node(5, 0, Some((7, 4, 1))),
    Node(6, 0, Some((7, 4, 2))),
    Node(7, 0, Some((6, 3, -2))),
    Node(8, 0, Some((3, 3, -2))),
    Node(9, 0, None),
    Node(0, 1, Some((0, 0, -2))),
    Node(1, 1, Some((5, 5, -2))),
    Node(2, 1, Some((10, 10, -2))),
    Node(3, 1, Some((10, 10, -1))),
    Node(4, 1, Some((10, 10, 0))),
    Node(5, 1, Some((10, 10, 1))),
    Node(6, 1, Some((10, 10, 2))),
    Node(7, 1, Some((7, 7, 2))),
    Node(8, 1, Some((4, 4, -2))),
    Node(0, 2, Some((0, 0, -2))),
    Node(1, 2, Some((0, 0, -1))),
    Node(2, 2, Some((0, 0, 0))),
    Node(3, 2, Some((0, 0, 1))),
    Node(4, 2, Some((0, 0, 2))),
    Node(5, 2, Some((-3, -3, 2))),
    Node(6, 2, Some((-6, -6, 2))),
    Node(7, 2, Some((-9, -9, 2))),
    Node(8, 2, Some((-12, -12, -2))),
];

// With several levels the bound takes the best pixels first, and the worst only where no row is free for a black pixel.
#[test]
fn each_number_of_black_pixels(rt: HostRuntime) -> Result<(), Fail> {
    let face = face_bytes(rt.alloc(), 4, &FOUR_LEVELS, &FOUR_PIXELS)?;
    let photo = photo_bytes(rt.alloc(), b"P4 9 8\n", &STAIR)?;
    on_line(
        rt.alloc(),
        &face,
        &photo,
        |scorer| held_and_lent(scorer, 9, &[1, 1, 1], &STAIR_NODES),
    )
}

// Boxes that reach past their setwidth, by up to four columns, and a setwidth that is wider than the line.
const WIDE: [Shape; 6] = [
    Shape(1, 3, 0, &[1, 0, 1, 0, 0, 1]),
    Shape(1, 5, 0, &[1, 0, 1, 0, 1, 0, 1, 0, 1, 0]),
    Shape(2, 1, 0, &[1, 0]),
    Shape(1, 2, 0, &[0, 0, 0, 1]),
    Shape(3, 4, 0, &[0, 0, 0, 0, 0, 0, 1, 0]),
    Shape(4, 0, 0, &[]),
];

const BLACK: [&[u8]; 5] = [b"###", b"###", b"###", b"###", b"###"];

const WIDE_NODES: [Node<Placed>; 20] = [
    Node(0, 0, Some((6, 6, -2))),
    Node(1, 0, Some((10, 10, -2))),
    Node(2, 0, Some((5, 5, -2))),
    Node(3, 0, None),
    Node(0, 1, Some((10, 10, -2))),
    Node(1, 1, Some((5, 5, -2))),
    Node(2, 1, Some((0, 0, -2))),
    Node(3, 1, None),
    Node(0, 2, Some((4, 4, -2))),
    Node(1, 2, Some((4, 4, -2))),
    Node(2, 2, None),
    Node(0, 3, Some((-2, -2, -2))),
    Node(1, 3, Some((-2, -2, -2))),
    Node(2, 3, Some((2, 2, -2))),
    Node(3, 3, None),
    Node(0, 4, Some((-1, -1, -2))),
    Node(1, 4, None),
    Node(0, 5, None),
    Node(1, 5, None),
    Node(0, 6, None),
];

// Right of a photograph all is white, though its padding is black, and pixels there still have what they earn anywhere.
#[test]
fn right_of_the_photograph(rt: HostRuntime) -> Result<(), Fail> {
    let face = face_bytes(rt.alloc(), 1, &[Level(5, -1), Level(-4, 2)], &WIDE)?;
    let photo = photo_bytes(rt.alloc(), b"P4 3 5\n", &BLACK)?;
    on_line(
        rt.alloc(),
        &face,
        &photo,
        |scorer| held_and_lent(scorer, 3, &[1, 1, 2, 1, 3, 4], &WIDE_NODES),
    )
}
