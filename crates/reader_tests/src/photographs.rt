// Photographs: each refusal with its place, what a header may hold, and pixels.
use checks::{check_eq, lawful, told};
use listing::read_line;
use photo::Photograph;
use std::test::Fail;

// A file, and what is refused of it under five rows, by number and place.
struct Case(&'static [u8], Option<(u8, usize)>);

const KIND_AND_END: [Case; 14] = [
    Case(b"", Some((21, 0))),
    Case(b"P", Some((21, 0))),
    Case(b"P5\n3 5\n", Some((21, 0))),
    Case(b"p4\n3 5\n", Some((21, 0))),
    Case(b"P4", Some((22, 2))),
    Case(b"P4\n", Some((22, 3))),
    Case(b"P4\n3", Some((22, 4))),
    Case(b"P4\n3 ", Some((22, 5))),
    Case(b"P4\n3 5", Some((22, 6))),
    Case(b"P4\n3 5\n", Some((24, 7))),
    Case(b"P4\n3 5\n1234", Some((24, 7))),
    Case(b"P4\n3 5\n12345", None),
    Case(b"P4\n3 5\n123456", Some((24, 7))),
    Case(b"P4\n9 5\n12345", Some((24, 7))),
];

const BYTES: [Case; 17] = [
    Case(b"P43 5\n12345", Some((22, 2))),
    Case(b"P4\t3\r5\r12345", None),
    Case(b"P4 \t\r\n3\n\r\t 5\t12345", None),
    Case(b"P4\n3 5\r\n1234", None),
    Case(b"P4#\n3 5\n12345", Some((22, 2))),
    Case(b"P4\n#\n3 5\n12345", Some((22, 3))),
    Case(b"P4\n3#\n5\n12345", Some((22, 4))),
    Case(b"P4\n3 #\n5\n12345", Some((22, 5))),
    Case(b"P4\n3 5#\n12345", Some((22, 6))),
    Case(b"P4\x0B3 5\n12345", Some((22, 2))),
    Case(b"P4\x003 5\n12345", Some((22, 2))),
    Case(b"P4\n-3 5\n12345", Some((22, 3))),
    Case(b"P4\n+3 5\n12345", Some((22, 3))),
    Case(b"P4\n3,5\n12345", Some((22, 4))),
    Case(b"P4\n3 5x12345", Some((22, 6))),
    Case(b"P4\n3/ 5\n12345", Some((22, 4))),
    Case(b"P4\n3: 5\n12345", Some((22, 4))),
];

const NUMBERS: [Case; 17] = [
    Case(b"P4 00003 00005\n12345", None),
    Case(b"P4 000003 5\n12345", Some((22, 8))),
    Case(b"P4 3 000005\n12345", Some((22, 10))),
    Case(b"P4 123456", Some((22, 8))),
    Case(b"P4 0 5\n", Some((23, 3))),
    Case(b"P4 00000 5\n", Some((23, 3))),
    Case(b"P4 2049 5\n", Some((23, 3))),
    Case(b"P4 99999 5\n", Some((23, 3))),
    Case(b"P4 2048 5\n", Some((24, 10))),
    Case(b"P4 3 4\n1234", Some((23, 5))),
    Case(b"P4 3 6\n123456", Some((23, 5))),
    Case(b"P4 3 00006\n", Some((23, 5))),
    Case(b"P4 0 99999\n", Some((23, 3))),
    Case(b"P4 0 5", Some((22, 6))),
    Case(b"P4 3 0\n", Some((23, 5))),
    Case(b"P4 3 99999\n", Some((23, 5))),
    Case(b"P4 1 5\n12345", None),
];

fn compare(cases: &[Case]) -> Result<(), Fail> {
    for Case(bytes, wanted) in cases {
        check_eq(told(photo::check(bytes, 5))?, *wanted)?;
    }
    Ok(())
}

#[test]
fn each_part_of_a_header() -> Result<(), Fail> {
    compare(&KIND_AND_END)?;
    compare(&BYTES)?;
    compare(&NUMBERS)
}

#[test]
fn any_number_of_rows_may_be_asked(rt: HostRuntime) -> Result<(), Fail> {
    let bytes = b"P4 3 99999\n";
    assert_eq!(rt; told(photo::check(bytes, 99_999))?, Some((24, 11)));
    assert_eq!(rt; told(photo::check(bytes, usize::MAX))?, Some((23, 5)));
    assert_eq!(rt; told(photo::check(b"P4 3 0\n", 0))?, None);
    Ok(())
}

#[test]
fn longest_files(rt: HostRuntime) -> Result<(), Fail> {
    let mut bytes = vec![in rt.alloc(); b' '; 16_375]?;
    assert!(rt; bytes.len() == 16_375);
    bytes[0..2].copy_from_slice(b"P4");
    bytes.extend_from_slice(b"3 5\n1234")?;
    assert_eq!(rt; told(photo::check(&bytes, 5))?, Some((24, 16_379)));
    bytes.push(0)?;
    assert_eq!(rt;
        (bytes.len(), told(photo::check(&bytes, 5))?),
        (16_384, None)
    );
    bytes.push(0)?;
    assert_eq!(rt; told(photo::check(&bytes, 5))?, Some((21, 0)));
    Ok(())
}

#[test]
fn pixels_and_padding(rt: HostRuntime) -> Result<(), Fail> {
    // Nine columns, two rows; the second has every padding bit set.
    let bytes: &[u8] = b"P4 9 2\n\x80\x80\x01\x7F";
    let header = lawful(photo::check(bytes, 2))?;
    let photograph = Photograph::new(bytes, 2, header);
    assert_eq!(rt; (photograph.width(), photograph.rows()), (9, 2));
    for x in 0..16usize {
        assert_eq!(rt; photograph.black(x, 0), x == 0 || x == 8);
        assert_eq!(rt; photograph.black(x, 1), x == 7);
        assert_eq!(rt; photograph.black(x, 2), false);
    }
    assert_eq!(rt; photograph.black(usize::MAX, 0), false);
    assert_eq!(rt; photograph.black(0, usize::MAX), false);
    Ok(())
}

#[test]
fn face_before_photograph(rt: HostRuntime) {
    let face: [u8; 12] = [1, 0, 1, 1, 2, 0, 0xFF, 0xFF, 0x2E, 1, 0, 0];
    let read = read_line(rt.alloc(), &face, b"");
    assert_eq!(rt;
        read.map_err(|refusal| (refusal.number(), refusal.place(), refusal.template())),
        Err((Some(13), 12, None))
    );
}
