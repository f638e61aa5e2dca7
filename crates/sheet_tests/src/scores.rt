// The scores of a sheet: each refusal with its place, and what is still lawful.
use super::sample::{SAMPLE, with_scores};
use checks::told;
use sheet_file::check;
use std::test::Fail;

// The exact score and the bound of one entry, and the number by which the entry is then refused.
struct Scores(i32, i32, Option<u8>);

const SCORES: [Scores; 22] = [
    Scores(0, 0, None),
    Scores(-4_000_000, 0, None),
    Scores(-4_000_001, 0, Some(35)),
    Scores(0, 4_000_000, None),
    Scores(0, 4_000_001, Some(35)),
    Scores(4_000_000, 4_000_000, None),
    Scores(4_000_001, 4_000_000, Some(35)),
    Scores(4_000_001, 4_000_001, Some(35)),
    Scores(-4_000_000, -4_000_000, None),
    Scores(-4_000_000, -4_000_001, Some(35)),
    Scores(-4_000_001, -4_000_001, Some(35)),
    Scores(-4_000_000, 4_000_000, None),
    Scores(4_000_000, -4_000_000, Some(36)),
    Scores(i32::MIN, 0, Some(35)),
    Scores(i32::MAX, 0, Some(35)),
    Scores(0, i32::MIN, Some(35)),
    Scores(0, i32::MAX, Some(35)),
    Scores(1, 0, Some(36)),
    Scores(0, -1, Some(36)),
    Scores(-1, 0, None),
    Scores(256, 255, Some(36)),
    Scores(-300, -300, None),
];

#[test]
fn each_score_of_each_node(rt: HostRuntime) -> Result<(), Fail> {
    for at in [6usize, 14, 22, 30, 38] {
        for Scores(exact, bound, number) in &SCORES {
            let sheet = with_scores(SAMPLE, at, *exact, *bound)?;
            assert_eq!(rt; told(check(&sheet))?, number.map(|number| (number, at)));
        }
    }
    Ok(())
}

#[test]
fn no_node_may_hold_anything(rt: HostRuntime) -> Result<(), Fail> {
    for Scores(exact, bound, _) in &SCORES {
        let sheet = with_scores(SAMPLE, 46, *exact, *bound)?;
        assert_eq!(rt; told(check(&sheet))?, None);
    }
    Ok(())
}

// An entry is read or passed over by the setwidth of its template.
#[test]
fn setwidths_say_what_is_a_node(rt: HostRuntime) -> Result<(), Fail> {
    let mut sheet = with_scores(SAMPLE, 38, i32::MAX, i32::MIN)?;
    assert_eq!(rt; told(check(&sheet))?, Some((35, 38)));
    sheet[5] = 3;
    assert_eq!(rt; told(check(&sheet))?, None);
    sheet[5] = 1;
    assert_eq!(rt; told(check(&sheet))?, Some((35, 38)));
    let mut last = SAMPLE;
    last[5] = 1;
    assert_eq!(rt; told(check(&last))?, Some((35, 46)));
    let mut ordered = with_scores(SAMPLE, 22, 1, 0)?;
    assert_eq!(rt; told(check(&ordered))?, Some((36, 22)));
    ordered[4] = 2;
    assert_eq!(rt; told(check(&ordered))?, None);
    Ok(())
}

#[test]
fn all_scores_come_before_any_order(rt: HostRuntime) -> Result<(), Fail> {
    let order = with_scores(SAMPLE, 6, 1, 0)?;
    assert_eq!(rt; told(check(&order))?, Some((36, 6)));
    let later_score = with_scores(order, 38, 0, 4_000_001)?;
    assert_eq!(rt; told(check(&later_score))?, Some((35, 38)));
    let earlier_score = with_scores(later_score, 30, -4_000_001, 0)?;
    assert_eq!(rt; told(check(&earlier_score))?, Some((35, 30)));
    let later_order = with_scores(order, 30, 6, 5)?;
    assert_eq!(rt; told(check(&later_order))?, Some((36, 6)));
    Ok(())
}

#[test]
fn earlier_checks_hide_later_ones(rt: HostRuntime) -> Result<(), Fail> {
    let mut sheet = with_scores(SAMPLE, 6, i32::MAX, 0)?;
    assert_eq!(rt; told(check(&sheet))?, Some((35, 6)));
    sheet[5] = 65;
    assert_eq!(rt; told(check(&sheet))?, Some((34, 5)));
    assert_eq!(rt; told(check(&sheet[0..53]))?, Some((33, 53)));
    sheet[2] = 65;
    assert_eq!(rt; told(check(&sheet[0..53]))?, Some((32, 2)));
    sheet[0] = 0;
    assert_eq!(rt; told(check(&sheet[0..53]))?, Some((32, 0)));
    assert_eq!(rt; told(check(&sheet[0..3]))?, Some((31, 3)));
    Ok(())
}
