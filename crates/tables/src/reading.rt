// Reading one file: the refusals 1, 2, 4 and 3, each over the whole file, then its rows as cells.
ghost use Rattle.std.specs.Prelude.{◌≡◌, ◌≤◌, ◌<◌, length, Err};
ghost use Rattle.tables.specs.promises.Laying.{FileRead, Shaped, RowsCounted, room};
ghost use Rattle.tables.specs.Refusals.{refused as reading_refused};

use crate::files::{File, Refusal, fewest_rows, most_rows, width};
use crate::headers::read_header;
use crate::rows::lay_rows;

// Reads a file into the lent run of cells, row behind row, and answers how many rows it has. Where it
// is refused with 1, 2 or 4, the
// run is as it was; an ill-formed field leaves a 0.
pub fn read(file: File, s: &[u8], cells: &mut [u64]) -> Result<usize, Refusal>
    requires { room file ≤ length cells.old }
    ensures { FileRead file s.now cells.old cells.new result }
{
    let scanned = csv_text::scan(s, width(file));
    match scanned {
        Some(found) => read_records(file, s, found.records, found.fitting, cells),
        None => refused(1, file, 0),
    }
}

// The header and the field counts of a file that is RFC 4180.
fn read_records(
    file: File,
    s: &[u8],
    records: usize,
    fitting: usize,
    cells: &mut [u64],
) -> Result<usize, Refusal>
    requires shaped { Shaped file s.now records fitting }
    requires file_in_bounds { room file ≤ length cells.old }
    ensures { FileRead file s.now cells.old cells.new result }
{
    if fitting == 0 {
        return refused(2, file, 0);
    }
    let header = read_header(file, s);
    if !header.same {
        return refused(2, file, 0);
    }
    if fitting < records {
        return refused(2, file, fitting);
    }
    read_rows(file, s, header.next, records - 1, cells)
}

// The rows of a file whose records all fit, the first at `start`.
fn read_rows(
    file: File,
    s: &[u8],
    start: usize,
    count: usize,
    cells: &mut [u64],
) -> Result<usize, Refusal>
    requires rows_counted { RowsCounted file s.now start count }
    requires file_in_bounds { room file ≤ length cells.old }
    ensures { FileRead file s.now cells.old cells.new result }
{
    if count < fewest_rows(file) {
        return refused(4, file, 0);
    }
    if most_rows(file) < count {
        return refused(4, file, 0);
    }
    let run = lay_rows(file, &s[start..], count, cells);
    if run < count {
        return refused(3, file, run + 1);
    }
    Ok(count)
}

fn refused(refusal: u64, file: File, place: usize) -> Result<usize, Refusal>
    ensures { result ≡ Err (reading_refused refusal file place) }
{
    Err(Refusal::of(refusal, file, place as u64))
}
