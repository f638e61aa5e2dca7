// Length, head and setwidths of a sheet: each refusal with its place, and each limit that is still lawful.
use super::sample::SAMPLE;
use checks::told;
use sheet_file::check;
use std::test::Fail;

// Width and count of a sheet, and what is then refused of the sample, by number and place.
struct Head(u16, u16, Option<(u8, usize)>);

const HEADS: [Head; 18] = [
    Head(3, 2, None),
    Head(0, 2, Some((32, 0))),
    Head(1, 2, Some((33, 54))),
    Head(2, 2, Some((33, 54))),
    Head(259, 2, Some((33, 54))),
    Head(2048, 2, Some((33, 54))),
    Head(2049, 2, Some((32, 0))),
    Head(65535, 2, Some((32, 0))),
    Head(3, 0, Some((32, 2))),
    Head(3, 1, Some((33, 54))),
    Head(3, 64, Some((33, 54))),
    Head(3, 65, Some((32, 2))),
    Head(3, 258, Some((32, 2))),
    Head(3, 65535, Some((32, 2))),
    Head(2048, 64, Some((33, 54))),
    Head(2048, 65, Some((32, 2))),
    Head(0, 0, Some((32, 0))),
    Head(2049, 65, Some((32, 0))),
];

#[test]
fn each_head(rt: HostRuntime) -> Result<(), Fail> {
    for Head(width, count, refused) in &HEADS {
        let mut sheet = SAMPLE;
        sheet[0..2].copy_from_slice(&width.to_le_bytes());
        sheet[2..4].copy_from_slice(&count.to_le_bytes());
        assert_eq!(rt; told(check(&sheet))?, *refused);
        let alone = refused
            .filter(|(number, _)| *number == 32)
            .unwrap_or((33, 4));
        assert_eq!(rt; told(check(&sheet[0..4]))?, Some(alone));
        assert_eq!(rt; told(check(&sheet[0..3]))?, Some((31, 3)));
    }
    Ok(())
}

#[test]
fn each_length(rt: HostRuntime) -> Result<(), Fail> {
    for length in 0..54usize {
        let number = if length < 4 { 31 } else { 33 };
        assert_eq!(rt; told(check(&SAMPLE[0..length]))?, Some((number, length)));
    }
    let mut bytes = SAMPLE.to_vec(rt.alloc())?;
    assert_eq!(rt; told(check(&bytes))?, None);
    bytes.push(0)?;
    assert_eq!(rt; told(check(&bytes))?, Some((33, 55)));
    Ok(())
}

#[test]
fn one_column_and_one_template(rt: HostRuntime) -> Result<(), Fail> {
    let sheet: [u8; 14] = [1, 0, 1, 0, 1, 5, 0, 0, 0, 6, 0, 0, 0, 0];
    assert_eq!(rt; told(check(&sheet[0..12]))?, Some((33, 12)));
    assert_eq!(rt; told(check(&sheet[0..13]))?, None);
    assert_eq!(rt; told(check(&sheet[0..14]))?, Some((33, 14)));
    Ok(())
}

// The setwidths of both templates, and what is then refused, by number and place.
struct Setwidths(u8, u8, Option<(u8, usize)>);

const SETWIDTHS: [Setwidths; 13] = [
    Setwidths(1, 2, None),
    Setwidths(0, 2, Some((34, 4))),
    Setwidths(3, 2, None),
    Setwidths(4, 2, None),
    Setwidths(64, 2, None),
    Setwidths(65, 2, Some((34, 4))),
    Setwidths(255, 2, Some((34, 4))),
    Setwidths(1, 0, Some((34, 5))),
    Setwidths(1, 64, None),
    Setwidths(1, 65, Some((34, 5))),
    Setwidths(1, 255, Some((34, 5))),
    Setwidths(64, 64, None),
    Setwidths(65, 0, Some((34, 4))),
];

#[test]
fn each_setwidth(rt: HostRuntime) -> Result<(), Fail> {
    for Setwidths(first, second, refused) in &SETWIDTHS {
        let mut sheet = SAMPLE;
        sheet[4] = *first;
        sheet[5] = *second;
        assert_eq!(rt; told(check(&sheet))?, *refused);
        assert_eq!(rt; told(check(&sheet[0..53]))?, Some((33, 53)));
    }
    Ok(())
}

#[test]
fn the_largest_sheet(rt: HostRuntime) -> Result<(), Fail> {
    let mut sheet = vec![in rt.alloc(); 0u8; 1_048_644]?;
    sheet[1] = 8;
    sheet[2] = 64;
    assert_eq!(rt; told(check(&sheet))?, Some((34, 4)));
    sheet[4..68].fill(64);
    assert_eq!(rt; told(check(&sheet))?, None);
    // The last template has its last node at 1,048,132.
    assert!(rt; sheet.len() == 1_048_644);
    sheet[1_048_140] = 1;
    assert_eq!(rt; told(check(&sheet))?, None);
    sheet[1_048_132] = 1;
    assert_eq!(rt; told(check(&sheet))?, Some((36, 1_048_132)));
    sheet.push(0)?;
    assert_eq!(rt; told(check(&sheet))?, Some((33, 1_048_645)));
    Ok(())
}
