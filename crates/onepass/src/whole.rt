// A whole file: its header, then its rows.
ghost use Rattle.std.specs.Prelude.{◌≤◌, length, Ok, IfSome};
ghost use Rattle.tables.specs.promises.Laying.{FileRead, room};

use crate::headers::header_end;
use crate::rows::lay_rows;
use tables::{FORM, File, MAXIMUM, MINIMUM, Refusal, fewest_rows};

// Reads a file into the lent run of cells, row behind row, as `tables::read` does; but what stands
// behind the cells of the file may be anything, and so may all of the run where a shape is refused.
pub fn read(file: File, s: &[u8], cells: &mut [u64]) -> Result<usize, Refusal>
    requires { room file ≤ length cells.old }
    ensures { FileRead file s.now cells.new cells.new result }
{
    match pass(file, s, cells) {
        Some(rows) => Ok(rows),
        None => tables::read(file, s, cells),
    }
}

// Lays down a file that is not refused, and answers how many rows it has, unless it gave up.
fn pass(file: File, s: &[u8], cells: &mut [u64]) -> Option<usize>
    requires { room file ≤ length cells.old }
    ensures { IfSome result (λ rows. FileRead file s.now cells.old cells.new (Ok rows)) }
{
    let start = header_end(file, s)?;
    let forms = FORM;
    let minima = MINIMUM;
    let maxima = MAXIMUM;
    let rows = lay_rows(file, &s[start..], &forms, &minima, &maxima, cells)?;
    if rows < fewest_rows(file) {
        return None;
    }
    Some(rows)
}
