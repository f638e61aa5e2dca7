// Asks the printed scorer every bound and every exact score of a large line. Prints their sums, and what one question took
// to the error output.
#![tactic(auto)]

mod made;

use face::Face;
use made::{make_face, make_photograph};
use photo::Photograph;
use printed::{Printed, gather, tabulate};
use scorer::Scorer;
use std::fmt;
use std::time::Instant;

// The sum of a score over all nodes, and how many there are.
#[derive(Clone, Copy, Default)]
struct Total {
    sum: i64,
    nodes: u64,
}

impl Total {
    // The total with the score of one node more: `sum` and `count` would ask each score twice.
    fn with(self, score: i64) -> Total {
        Total {
            sum: self.sum.wrapping_add(score),
            nodes: self.nodes.wrapping_add(1),
        }
    }
}

impl fmt::Display for Total {
    fn fmt<W: fmt::Write>(&self, f: &mut fmt::Formatter<W>) -> fmt::Result {
        let Total { sum, nodes } = *self;
        write!(f, "{nodes} nodes, sum {sum}")
    }
}

// The total of a score that the scorer is asked at each column and template. By loops: with `filter_map` the search for the next
// node is compiled poorly, and the total of the bounds takes three times as long.
fn over_nodes<F: Fn(&Printed, usize, usize) -> Option<i64>>(scorer: &Printed, score: F) -> Total
    requires { F.IsAlwaysCallable score }
{
    let mut total = Total::default();
    for t in 0..scorer.count() {
        for x in 0..scorer.width() {
            if let Some(score) = score(scorer, x, t) {
                total = total.with(score);
            }
        }
    }
    total
}

// Prints a total, and to the error output what one question took. `main` reads the clock around each sum itself: in a
// function that times and prints, taking the question, one exact score took 1,670 ns and not 1,160.
fn show(rt: &HostRuntime, what: &str, total: Total, nanos: u128) -> anyhow::Result<()> {
    println!(rt; "{what}: {total}")?;
    if let Some(each) = nanos.checked_div(u128::from(total.nodes)) {
        eprintln!(rt; "{what}: {each} ns each")?;
    }
    Ok(())
}

// Makes the scorer, and asks. What the scorer is made of lends to each other, so no function can hand it out.
fn main(rt: HostRuntime) -> anyhow::Result<()> {
    let heap = rt.alloc();
    let face_bytes = make_face(heap)?;
    let photo_bytes = make_photograph(heap)?;
    face::check(&face_bytes)?;
    let face = Face::new(&face_bytes);
    let rows = face.height() + 4;
    let header = photo::check(&photo_bytes, rows)?;
    let photograph = Photograph::new(&photo_bytes, rows, header);
    let start = Instant::now(&rt)?;
    let columns = gather(heap, &face, &photograph)?;
    let gathered = start.elapsed(&rt)?.as_micros();
    let start = Instant::now(&rt)?;
    let tables = tabulate(heap, &face)?;
    let tabulated = start.elapsed(&rt)?.as_micros();
    eprintln!(rt; "gathered in {gathered} us, tabulated in {tabulated} us")?;
    let scorer = Printed::new(face, photograph, &columns, &tables);
    let start = Instant::now(&rt)?;
    let bounds = over_nodes(&scorer, |scorer, x, t| scorer.bound(x, t));
    show(&rt, "bounds", bounds, start.elapsed(&rt)?.as_nanos())?;
    let start = Instant::now(&rt)?;
    let exact = over_nodes(&scorer, |scorer, x, t| scorer.exact(x, t));
    show(&rt, "exact scores", exact, start.elapsed(&rt)?.as_nanos())
}
