// A line of pixels without order: what holds at every node.
ghost use Rattle.std.specs.Prelude.{◌≡◌, OnOk};
ghost use Rattle.scorer_tests.specs.Told.{Alike};

use super::making::{Level, Shape, face_bytes, on_line, window};
use checks::{Noise, check, check_eq};
use printed::Printed;
use scorer::{PlacedScorer, check_window};
use std::alloc::{AllocError, Global};
use std::test::*;

// A photograph of 61 columns and 9 rows.
fn noise(heap: Global) -> Result<Vec<u8>, Fail> {
    let mut bytes = b"P4 61 9\n".to_vec(heap)?;
    let numbers = Noise::new(2_024).skip(1).take(72);
    bytes.extend(numbers.map(|number| number.to_be_bytes()[0]))?;
    Ok(bytes)
}

const LEVELS: [Level; 3] = [Level(9, -2), Level(-7, 3), Level(4, 0)];

// Boxes of five rows, of which some are wider than their setwidth.
const SHAPES: [Shape; 4] = [
    Shape(1, 0, -3, &[]),
    Shape(2, 3, -1, &[3, 4, 24, 1, 2, 12, 16, 15, 0]),
    Shape(5, 4, -20, &[31, 0, 0, 0, 31, 0, 10, 21, 0, 4, 1, 26]),
    Shape(7, 2, 0, &[14, 17, 0, 17, 14, 0]),
];

// A node, and what is told of it.
#[derive(Drop)]
struct Told {
    x: usize,
    t: usize,
    bound: i64,
    exact: i64,
    shift: i64,
}

// What is told of a column and a template, if they are a node.
fn told_at<S: PlacedScorer>(scorer: &S, x: usize, t: usize) -> Option<Told> {
    Some(Told {
        x,
        t,
        bound: scorer.bound(x, t)?,
        exact: scorer.exact(x, t)?,
        shift: scorer.shift(x, t)?,
    })
}

// What is told of all nodes of a line of four templates and at most 61 columns.
fn all_told<S: PlacedScorer>(heap: Global, scorer: &S) -> Result<Vec<Told>, AllocError> {
    (0..4)
        .flat_map(|t| (0..61).filter_map(move |x| told_at(scorer, x, t)))
        .collect(heap)
}

// Asks every node of the line.
fn ask_nodes(heap: Global, scorer: &Printed) -> Result<(), Fail> {
    let nodes = all_told(heap, scorer)?;
    check(nodes.iter().all(|node| node.exact <= node.bound))?;
    check(nodes.iter().all(|node| (-2..=2).contains(&node.shift)))?;
    // 61, 60, 57 and 55 nodes.
    check_eq(nodes.len(), 233)?;
    let apart = nodes.iter().filter(|node| node.exact < node.bound).count();
    check((1..172).contains(&apart))
}

// Asks of the line of 61 columns.
fn on_noise<F: FnOnce(&Printed) -> Result<(), Fail>>(heap: Global, ask: F) -> Result<(), Fail>
    requires { F.IsAlwaysCallable ask }
{
    let face = face_bytes(heap, 5, &LEVELS, &SHAPES)?;
    let photo = noise(heap)?;
    on_line(heap, &face, &photo, ask)
}

// No exact score is above its bound, and some are below.
#[test]
fn exact_never_above_bound(rt: HostRuntime) -> Result<(), Fail> {
    let heap = rt.alloc();
    on_noise(heap, |scorer| ask_nodes(heap, scorer))
}

// Whether a column and a template of a window have the answers that are told `first` columns further on below.
fn alike<S: PlacedScorer, W: PlacedScorer>(
    window: &W,
    below: &S,
    first: usize,
    x: usize,
    t: usize,
) -> Result<(), Fail>
    ensures { OnOk result (Alike (W.Scorer.meaning window.now) (S.Scorer.meaning below.now) first x t) }
{
    check(first <= 61 && x <= 61)?;
    check(window.bound(x, t) == below.bound(first + x, t))?;
    check(window.exact(x, t) == below.exact(first + x, t))?;
    check_eq(window.shift(x, t), below.shift(first + x, t))
}

// Compares all nodes of a window with those below, and tells how many there are.
fn compare<S: PlacedScorer, W: PlacedScorer>(
    heap: Global,
    window: &W,
    below: &S,
    first: usize,
) -> Result<usize, Fail>
    ensures { OnOk result ((W.Scorer.meaning window.now).count ≡ 4) }
{
    check(window.count() == 4)?;
    let nodes = all_told(heap, window)?;
    for node in &nodes {
        alike(window, below, first, node.x, node.t)?;
    }
    Ok(nodes.len())
}

// Asks every window of ten columns, and a window over each.
fn ask_windows(heap: Global, scorer: &Printed) -> Result<(), Fail> {
    for first in 0..52usize {
        let outer = window(scorer, first, 10)?;
        // 10, 9, 6 and 4 nodes.
        check_eq(compare(heap, &outer, scorer, first)?, 29)?;
        let inner = window(&outer, 3, 6)?;
        // 6, 5, 2 and none.
        check_eq(compare(heap, &inner, &outer, 3)?, 13)?;
    }
    check(check_window(&scorer, 52, 10).is_err())
}

// Every window of ten columns tells at each of its nodes what is told below, and so does a window over it.
#[test]
fn windows_as_below(rt: HostRuntime) -> Result<(), Fail> {
    let heap = rt.alloc();
    on_noise(heap, |scorer| ask_windows(heap, scorer))
}
