// The questions to a scorer, each with the answer that it must have.
ghost use Rattle.std.specs.Prelude.{length, OnOk};
ghost use Rattle.printed.specs.Scored.{line_meaning};
ghost use Rattle.scorer_tests.specs.Told.{Measured};

use checks::{check, check_eq};
use printed::Printed;
use scorer::{PlacedScorer, Scorer};
use std::test::*;

// A column and a template, with what is told there.
pub(crate) struct Node<A>(pub(crate) usize, pub(crate) usize, pub(crate) Option<A>);

// A node's bound and exact score.
pub(crate) type Scored = (i64, i64);

// A node's bound, exact score and shift.
pub(crate) type Placed = (i64, i64, i64);

// Compares width, count and setwidths.
pub(crate) fn measures<S: Scorer>(scorer: &S, width: usize, setwidths: &[usize]) -> Result<(), Fail>
    ensures { OnOk result (Measured (S.Scorer.meaning scorer.now) width (length setwidths.now)) }
{
    check(scorer.width() == width)?;
    check(scorer.count() == setwidths.len())?;
    for (t, setwidth) in setwidths.iter().enumerate() {
        check_eq(scorer.setwidth(t), Some(*setwidth))?;
    }
    check_eq(scorer.setwidth(setwidths.len()), None)?;
    check_eq(scorer.setwidth(usize::MAX), None)
}

// Compares the answer at each column and template with its part in what is told there.
fn compare<A: Copy, Q: Fn(usize, usize) -> Option<i64>, P: Fn(A) -> i64>(
    nodes: &[Node<A>],
    question: Q,
    part: P,
) -> Result<(), Fail>
    requires asked { Q.IsAlwaysCallable question }
    requires parted { P.IsAlwaysCallable part }
{
    for Node(x, t, told) in nodes {
        check_eq((*x, *t, question(*x, *t)), (*x, *t, told.map(&part)))?;
    }
    Ok(())
}

// Compares the scores at each column and template.
pub(crate) fn scores<S: Scorer>(scorer: &S, nodes: &[Node<Scored>]) -> Result<(), Fail> {
    compare(nodes, |x, t| scorer.bound(x, t), |(bound, _)| bound)?;
    compare(nodes, |x, t| scorer.exact(x, t), |(_, exact)| exact)
}

// Compares the scores and the shift at each column and template.
fn places<S: PlacedScorer>(scorer: &S, nodes: &[Node<Placed>]) -> Result<(), Fail> {
    compare(nodes, |x, t| scorer.bound(x, t), |(bound, _, _)| bound)?;
    compare(nodes, |x, t| scorer.exact(x, t), |(_, exact, _)| exact)?;
    compare(nodes, |x, t| scorer.shift(x, t), |(_, _, shift)| shift)
}

// Compares all that a scorer tells.
pub(crate) fn answers<S: PlacedScorer>(
    scorer: &S,
    width: usize,
    setwidths: &[usize],
    nodes: &[Node<Placed>],
) -> Result<(), Fail>
    ensures { OnOk result (Measured (S.Scorer.meaning scorer.now) width (length setwidths.now)) }
{
    measures(scorer, width, setwidths)?;
    places(scorer, nodes)
}

// Compares all that a printed scorer tells, and once more where it is lent.
pub(crate) fn held_and_lent(
    scorer: &Printed,
    width: usize,
    setwidths: &[usize],
    nodes: &[Node<Placed>],
) -> Result<(), Fail>
    ensures { OnOk result (Measured (line_meaning scorer.now.face.bytes.now scorer.now.photo) width (length setwidths.now)) }
{
    answers(scorer, width, setwidths, nodes)?;
    answers(&scorer, width, setwidths, nodes)
}
