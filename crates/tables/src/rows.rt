// Rows of a file, from its text to a lent run of cells. Fields are read as parts of the file that
// begin where the field begins; an ill-formed one leaves a 0 in its cell.
ghost use Rattle.std.specs.Prelude.{◌*◌, ◌≤◌, ◌<◌, length};
ghost use Rattle.tables.specs.Table.{width as table_width};
ghost use Rattle.tables.specs.promises.Laying.{FieldRead, RowLaid, RowsLaid};
ghost use Rattle.tables.specs.promises.Columns.{column_count};

use crate::columns::{cell, first_column};
use crate::files::{File, width};

// A field that was read: its cell, if it is well-formed, and where what follows it begins.
#[derive(Clone, Copy)]
pub struct Field {
    pub cell: Option<u64>,
    pub next: usize,
}

// A row that was laid down: whether every field is well-formed, and where what follows it begins. No
// `Option`: the place is told in either case.
#[derive(Clone, Copy)]
pub struct Row {
    pub good: bool,
    pub next: usize,
}

// Lays down `count` rows, the first at the start of `s`, and answers how many are well-formed before
// the first that is not.
pub fn lay_rows(file: File, s: &[u8], count: usize, cells: &mut [u64]) -> usize
    requires { count * table_width file ≤ length cells.old }
    ensures { RowsLaid file count s.now cells.old cells.new result }
{
    let columns = width(file);
    let mut rest = s;
    let mut at = 0;
    let mut run = 0;
    for k in 0..count {
        let row = lay_row(file, rest, &mut cells[at..]);
        run += usize::from(run == k && row.good);
        let next = row.next;
        rest = &rest[next..];
        at += columns;
    }
    run
}

fn lay_row(file: File, s: &[u8], out: &mut [u64]) -> Row
    requires { table_width file ≤ length out.old }
    ensures { RowLaid file s.now out.old out.new result }
{
    let first = first_column(file);
    let columns = width(file);
    let mut rest = s;
    let mut good = true;
    for c in 0..columns {
        let field = read_field(first + c, rest);
        out[c] = field.cell.unwrap_or(0);
        good &= field.cell.is_some();
        let next = field.next;
        rest = &rest[next..];
    }
    Row {
        good: good,
        next: s.len() - rest.len(),
    }
}

fn read_field(column: usize, s: &[u8]) -> Field
    requires { column < column_count }
    ensures { FieldRead column s.now result }
{
    let n = csv_text::field_length(s);
    let text = csv_text::inner(&s[0..n]);
    Field {
        cell: cell(column, text),
        next: csv_text::after_field(s, n),
    }
}
