// Sweeps over cells that a Vec holds, for the lines of small sheets.
ghost use Rattle.std.specs.Prelude.{◌≡◌, Ok, vec_len};
ghost use Rattle.cells.specs.Layout.{cells_verdict};
ghost use Rattle.sweep.specs.Swept.{swept, SweepJoins};

use super::{Combining, sweep_cells};
use cells::{Cell, Line};
use checks::lawful;
use sheet::Sheet;
use std::test::Fail;

// Three columns and two templates, of setwidths 1 and 2. The last entry is no node.
const TWO: [u8; 54] =
    *b"\x03\x00\x02\x00\x01\x02\0\0\0\0\0\0\0\0\0\0\0\0\0\0\0\0\0\0\0\0\0\0\0\0\0\0\0\0\0\0\0\0\0\0\0\0\0\0\0\0\xFF\xFF\xFF\x7F\x00\x00\x00\x80";

// Three columns and one template, of setwidth 2.
const WIDE: [u8; 29] =
    *b"\x03\x00\x01\x00\x02\0\0\0\0\0\0\0\0\0\0\0\0\0\0\0\0\xFF\xFF\xFF\x7F\x00\x00\x00\x80";

// A column and a template, with the standing score there.
struct Standing(usize, usize, i64);

const STANDING: [Standing; 5] = [
    Standing(0, 0, 1),
    Standing(1, 0, 2),
    Standing(2, 0, 3),
    Standing(0, 1, 5),
    Standing(1, 1, 4),
];

// The total of each place of that line, and the last template of the path that has it.
const TOTALS: [(Option<i64>, usize); 4] = [(Some(0), 0), (Some(1), 0), (Some(5), 1), (Some(8), 0)];

// The line of a sheet. Fails where the sheet is refused.
fn line_of(bytes: &[u8]) -> Result<Line, Fail> {
    lawful(sheet_file::check(bytes))?;
    Ok(Line::of(&Sheet::new(bytes)))
}

// Sweeps the cells of a Vec.
fn sweep_vec<C: Combining>(line: &Line, cells: &mut Vec<Cell>)
    requires { cells_verdict line.now (vec_len cells.old) ≡ Ok tt }
    ensures cells { cells.new.items ≡ swept C.Combining.rule C.Combining.stored line.now cells.old.items }
    ensures joins { SweepJoins C.Combining.rule C.Combining.held C.Combining.stored line.now cells.old.items }
{
    sweep_cells::<C>(line, cells);
}

#[test]
fn totals(rt: HostRuntime) -> Result<(), Fail> {
    let line = line_of(&TWO)?;
    let mut cells = [Cell::blank(); 12].to_vec(rt.alloc())?;
    for Standing(x, t, score) in &STANDING {
        let cell = Cell {
            score: *score,
            ..Cell::blank()
        };
        line.set_node(&mut cells, *x, *t, cell);
    }
    lawful(line.check(cells.len()))?;
    sweep_vec::<Option<i64>>(&line, &mut cells);
    let found = [0, 1, 2, 3].map(|p| line.place(&cells, p));
    assert_eq!(rt; found.map(|cell| (cell.total(), cell.template)), TOTALS);
    Ok(())
}

#[test]
fn yes_or_no(rt: HostRuntime) -> Result<(), Fail> {
    let line = line_of(&WIDE)?;
    let mut cells = [Cell::blank(); 8].to_vec(rt.alloc())?;
    lawful(line.check(cells.len()))?;
    sweep_vec::<bool>(&line, &mut cells);
    let found = [0, 1, 2, 3].map(|p| bool::load(line.place(&cells, p)));
    assert_eq!(rt; found, [true, false, true, false]);
    Ok(())
}
