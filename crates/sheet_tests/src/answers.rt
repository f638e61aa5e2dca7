// What a sheet answers: at each node, at the edges, and at the largest numbers.
use super::sample::{SAMPLE, opened};
use scorer::Scorer;
use std::test::Fail;

// A column and a template, with the bound and the exact score there.
struct Case(usize, usize, Option<(i64, i64)>);

const CASES: [Case; 17] = [
    Case(0, 0, Some((0, -1))),
    Case(1, 0, Some((4_000_000, -4_000_000))),
    Case(2, 0, Some((66_051, 258))),
    Case(3, 0, None),
    Case(0, 1, Some((5, 5))),
    Case(1, 1, Some((-299, -300))),
    Case(2, 1, None),
    Case(3, 1, None),
    Case(0, 2, None),
    Case(1, 2, None),
    Case(usize::MAX, 0, None),
    Case(usize::MAX, 1, None),
    Case(usize::MAX - 1, 1, None),
    Case(0, usize::MAX, None),
    Case(1, usize::MAX, None),
    Case(usize::MAX, 2, None),
    Case(usize::MAX, usize::MAX, None),
];

#[test]
fn scores(rt: HostRuntime) -> Result<(), Fail> {
    let sheet = opened(&SAMPLE)?;
    for Case(x, t, scores) in &CASES {
        assert_eq!(rt; (sheet.bound(*x, *t), sheet.exact(*x, *t)), scores.unzip());
    }
    Ok(())
}

#[test]
fn columns_and_templates(rt: HostRuntime) -> Result<(), Fail> {
    let sheet = opened(&SAMPLE)?;
    assert_eq!(rt; (sheet.width(), sheet.count()), (3, 2));
    assert_eq!(rt; (sheet.setwidth(0), sheet.setwidth(1)), (Some(1), Some(2)));
    assert_eq!(rt;
        (sheet.setwidth(2), sheet.setwidth(usize::MAX)),
        (None, None)
    );
    Ok(())
}
