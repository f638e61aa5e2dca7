// Faces: each refusal with its place, each limit that is still lawful, and the questions.
use checks::{check, check_eq, lawful, told};
use face::Face;
use std::test::Fail;

// Two templates, one level, one row: `.` without a box, and `I` with one pixel.
const SAMPLE: [u8; 28] = [
    2, 0, 1, 1, 2, 0, 0xFF, 0xFF, 0x2E, 1, 0, 0, 0, 0, 0, 0, 0x49, 2, 1, 0, 0, 0, 0, 0, 1, 0, 0, 0,
];

// One template with a box of two columns, two levels, two rows.
const TWO_LEVELS: [u8; 36] = [
    1, 0, 2, 2, 3, 0, 0, 0, 0xFE, 0xFF, 0, 0, 0x41, 1, 2, 0, 0, 0, 0, 0, 1, 0, 0, 0, 2, 0, 0, 0, 3,
    0, 0, 0, 0, 0, 0, 0,
];

// One template with a box of one column, three levels, three rows.
const THREE_LEVELS: [u8; 36] = [
    1, 0, 3, 3, 1, 0, 0, 0, 1, 0, 0, 0, 1, 0, 0, 0, 0x41, 1, 1, 0, 0, 0, 0, 0, 1, 0, 0, 0, 2, 0, 0,
    0, 4, 0, 0, 0,
];

// Two bytes put at a place, and what is then refused, by number and place.
struct Case(usize, [u8; 2], Option<(u8, usize)>);

// Puts each case into a copy of the face and compares what the check tells.
fn compare<const N: usize>(face: [u8; N], cases: &[Case]) -> Result<(), Fail> {
    for Case(at, put, wanted) in cases {
        let mut bytes = face;
        check(N >= 2 && *at <= N - 2)?;
        let faulty = &mut bytes[..];
        faulty[*at..*at + 2].copy_from_slice(put);
        check_eq(told(face::check(&bytes))?, *wanted)?;
    }
    Ok(())
}

const HEAD_AND_LEVEL: [Case; 29] = [
    Case(0, [2, 0], None),
    Case(0, [0, 0], Some((12, 0))),
    Case(0, [65, 0], Some((12, 0))),
    Case(0, [2, 1], Some((12, 0))),
    Case(0, [64, 0], Some((13, 28))),
    Case(2, [0, 1], Some((12, 2))),
    Case(2, [5, 1], Some((12, 2))),
    Case(2, [4, 1], Some((13, 28))),
    Case(2, [2, 1], Some((15, 12))),
    Case(2, [1, 0], Some((12, 3))),
    Case(2, [1, 33], Some((12, 3))),
    Case(2, [1, 32], None),
    Case(4, [0xE8, 0x03], None),
    Case(4, [0xE9, 0x03], Some((14, 4))),
    Case(4, [0x18, 0xFC], None),
    Case(4, [0x17, 0xFC], Some((14, 4))),
    Case(6, [0xE8, 0x03], None),
    Case(6, [0xE9, 0x03], Some((14, 4))),
    Case(6, [0x18, 0xFC], None),
    Case(6, [0x17, 0xFC], Some((14, 4))),
    Case(0, [0xFF, 0xFF], Some((12, 0))),
    Case(0, [1, 0], Some((16, 28))),
    Case(2, [255, 1], Some((12, 2))),
    Case(2, [1, 255], Some((12, 3))),
    Case(4, [0xFF, 0x7F], Some((14, 4))),
    Case(4, [0, 0x80], Some((14, 4))),
    Case(4, [0, 0], None),
    Case(6, [0xFF, 0x7F], Some((14, 4))),
    Case(6, [0, 0x80], Some((14, 4))),
];

const TEMPLATES: [Case; 33] = [
    Case(8, [32, 1], Some((15, 8))),
    Case(8, [33, 1], None),
    Case(8, [126, 1], None),
    Case(8, [127, 1], Some((15, 8))),
    Case(8, [46, 0], Some((15, 8))),
    Case(8, [46, 64], None),
    Case(8, [46, 65], Some((15, 8))),
    Case(10, [1, 0], Some((16, 28))),
    Case(10, [32, 0], Some((16, 28))),
    Case(10, [33, 0], Some((15, 8))),
    Case(10, [0, 1], Some((15, 8))),
    Case(12, [1, 0], Some((15, 8))),
    Case(12, [0xF0, 0xD8], None),
    Case(12, [0xEF, 0xD8], Some((15, 8))),
    Case(14, [1, 0], Some((15, 8))),
    Case(14, [0, 1], Some((15, 8))),
    Case(16, [32, 2], Some((15, 16))),
    Case(16, [73, 65], Some((15, 16))),
    Case(18, [0, 0], Some((16, 28))),
    Case(24, [0, 0], None),
    Case(24, [2, 0], Some((17, 24))),
    Case(26, [0, 0x80], Some((17, 24))),
    Case(8, [0, 1], Some((15, 8))),
    Case(8, [255, 1], Some((15, 8))),
    Case(8, [46, 255], Some((15, 8))),
    Case(10, [255, 0], Some((15, 8))),
    Case(10, [0, 255], Some((15, 8))),
    Case(12, [0xFF, 0x7F], Some((15, 8))),
    Case(12, [0, 0x80], Some((15, 8))),
    Case(12, [0xFF, 0xFF], None),
    Case(14, [255, 0], Some((15, 8))),
    Case(22, [0, 255], Some((15, 16))),
    Case(24, [0xFF, 0xFF], Some((17, 24))),
];

const LEVELS_APART: [Case; 6] = [
    Case(20, [3, 0], Some((17, 24))),
    Case(24, [0, 0], None),
    Case(24, [1, 0], Some((17, 24))),
    Case(24, [6, 0], Some((17, 24))),
    Case(28, [4, 0], Some((17, 28))),
    Case(32, [2, 0], Some((17, 32))),
];

#[test]
fn each_field_at_its_limits() -> Result<(), Fail> {
    compare(SAMPLE, &HEAD_AND_LEVEL)?;
    compare(SAMPLE, &TEMPLATES)?;
    compare(TWO_LEVELS, &LEVELS_APART)?;
    // The third level may share no pixel with the first either.
    compare(
        THREE_LEVELS,
        &[
            Case(32, [4, 0], None),
            Case(32, [1, 0], Some((17, 32))),
            Case(32, [2, 0], Some((17, 32))),
        ],
    )
}

#[test]
fn each_length(rt: HostRuntime) -> Result<(), Fail> {
    for length in 0..28usize {
        let expected = if length < 4 {
            (11, 0)
        } else if length < 24 {
            (13, length)
        } else {
            (16, length)
        };
        assert_eq!(rt; told(face::check(&SAMPLE[0..length]))?, Some(expected));
    }
    let mut bytes = SAMPLE.to_vec(rt.alloc())?;
    assert_eq!(rt; told(face::check(&bytes))?, None);
    bytes.push(0)?;
    assert_eq!(rt; told(face::check(&bytes))?, Some((16, 29)));
    Ok(())
}

#[test]
fn size_comes_first(rt: HostRuntime) -> Result<(), Fail> {
    let mut bytes = vec![in rt.alloc(); 0u8; 65_536]?;
    assert_eq!(rt; told(face::check(&bytes))?, Some((12, 0)));
    bytes.push(0)?;
    assert_eq!(rt; told(face::check(&bytes))?, Some((11, 0)));
    Ok(())
}

#[test]
fn earlier_checks_hide_later_ones(rt: HostRuntime) -> Result<(), Fail> {
    let mut bytes = SAMPLE;
    bytes[24] = 2;
    assert_eq!(rt; told(face::check(&bytes))?, Some((17, 24)));
    assert_eq!(rt; told(face::check(&bytes[0..27]))?, Some((16, 27)));
    bytes[19] = 1;
    assert_eq!(rt; told(face::check(&bytes[0..27]))?, Some((15, 16)));
    bytes[7] = 0x80;
    assert_eq!(rt; told(face::check(&bytes[0..27]))?, Some((14, 4)));
    assert_eq!(rt; told(face::check(&bytes[0..23]))?, Some((13, 23)));
    bytes[3] = 0;
    assert_eq!(rt; told(face::check(&bytes[0..23]))?, Some((12, 3)));
    bytes[2] = 0;
    bytes[0] = 0;
    assert_eq!(rt; told(face::check(&bytes[0..23]))?, Some((12, 0)));
    Ok(())
}

#[test]
fn write_white_is_below_zero(rt: HostRuntime) -> Result<(), Fail> {
    for (gamma, expected) in [([0xFF, 0xFF], true), ([0, 0], false), ([1, 0], false)] {
        let mut bytes = SAMPLE;
        bytes[4..6].copy_from_slice(&gamma);
        lawful(face::check(&bytes))?;
        assert_eq!(rt; Face::new(&bytes).write_white(0), Some(expected));
    }
    Ok(())
}

#[test]
fn questions(rt: HostRuntime) -> Result<(), Fail> {
    let bytes = &SAMPLE;
    lawful(face::check(bytes))?;
    let face = Face::new(bytes);
    assert_eq!(rt; (face.count(), face.levels(), face.height()), (2, 1, 1));
    assert_eq!(rt; (face.gamma(0), face.gamma(1)), (Some(2), None));
    assert_eq!(rt;
        (face.write_white(0), face.write_white(1)),
        (Some(false), None)
    );
    assert_eq!(rt; (face.beta(0), face.beta(usize::MAX)), (Some(-1), None));
    assert_eq!(rt;
        (face.name(0), face.name(1), face.name(2)),
        (Some(b'.'), Some(b'I'), None)
    );
    assert_eq!(rt;
        (
            face.setwidth(0),
            face.setwidth(1),
            face.setwidth(usize::MAX),
        ),
        (Some(1), Some(2), None)
    );
    assert_eq!(rt;
        (face.box_width(0), face.box_width(1), face.box_width(2)),
        (Some(0), Some(1), None)
    );
    assert_eq!(rt;
        (face.prior(0), face.prior(1), face.prior(2)),
        (Some(0), Some(0), None)
    );
    assert!(rt; face.columns(0) == Some(&bytes[24..24]));
    assert!(rt; face.columns(1) == Some(&bytes[24..28]));
    assert!(rt; face.columns(usize::MAX).is_none());
    Ok(())
}
