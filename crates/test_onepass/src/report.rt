// What a case prints. Assumes that no column permits the largest 64-bit number.
use std::io;
use tables::File;

// The cells of the longest file: 4,096 rows of 5.
const CELLS: usize = 20480;

// What a cell holds that reading has not written.
const UNTOUCHED: u64 = 18_446_744_073_709_551_615;

// Reads a file and prints the refusal as number, file and place, or the rows and every cell.
pub fn case(rt: &impl Print, file: File, bytes: &[u8]) -> io::Result<()> {
    let mut cells = [UNTOUCHED; CELLS];
    let reading = onepass::read(file, bytes, &mut cells);
    match reading {
        Ok(rows) => print_rows(rt, rows, &cells),
        Err(refusal) => println!(rt; "{refusal}"),
    }
}

fn print_rows(rt: &impl Print, rows: usize, cells: &[u64]) -> io::Result<()> {
    print!(rt; "rows {rows}:")?;
    print_cells(rt, cells)?;
    rt.write_all(b"\n")
}

// Prints the cells that reading has written.
fn print_cells(rt: &impl Print, cells: &[u64]) -> io::Result<()> {
    for (i, cell) in cells.iter().enumerate() {
        if *cell == UNTOUCHED {
            return Ok(());
        }
        print_cell(rt, i, *cell)?;
    }
    Ok(())
}

fn print_cell(rt: &impl Print, i: usize, cell: u64) -> io::Result<()> {
    if 0 < i {
        rt.write_all(b",")?;
    }
    print!(rt; "{cell}")
}
