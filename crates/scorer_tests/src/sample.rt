// Two templates on three columns, as bytes.
use super::asking::{Node, Placed, held_and_lent};
use super::making::on_line;
use std::test::*;

// A template of setwidth 1 without a box, and one of setwidth 2 with one pixel, which earns 2 over black and costs 1.
const FACE: &[u8] = b"\x02\0\x01\x01\
    \x02\0\xFF\xFF\
    .\x01\0\0\0\0\0\0\
    I\x02\x01\0\0\0\0\0\
    \x01\0\0\0";

// One black pixel, in the middle.
const PHOTO: &[u8] = b"P4\n3 5\n\0\0\x40\0\0";

const NODES: [Node<Placed>; 19] = [
    Node(0, 0, Some((0, 0, -2))),
    Node(1, 0, Some((0, 0, -2))),
    Node(2, 0, Some((0, 0, -2))),
    Node(3, 0, None),
    Node(4, 0, None),
    Node(usize::MAX, 0, None),
    Node(0, 1, Some((-1, -1, -2))),
    Node(1, 1, Some((1, 1, 0))),
    Node(2, 1, None),
    Node(3, 1, None),
    Node(usize::MAX - 1, 1, None),
    Node(usize::MAX, 1, None),
    Node(0, 2, None),
    Node(1, 2, None),
    Node(usize::MAX, 2, None),
    Node(0, usize::MAX, None),
    Node(1, usize::MAX, None),
    Node(0, usize::MAX - 1, None),
    Node(usize::MAX, usize::MAX, None),
];

// Each node has its answers, and what is no node has none.
#[test]
fn the_sample(rt: HostRuntime) -> Result<(), Fail> {
    on_line(
        rt.alloc(),
        FACE,
        PHOTO,
        |scorer| held_and_lent(scorer, 3, &[1, 2], &NODES),
    )
}
