// Rows as parts of a file that begin where the row begins, each field handed on as the part that
// begins with it, and the separators behind fields. A step that gives up has no answer.
ghost use Rattle.std.specs.Prelude.{◌≤◌, true, false, length, IfSome};
ghost use Rattle.tables.specs.Table.{width as table_width};
ghost use Rattle.tables.specs.promises.Laying.{room};
ghost use Rattle.onepass.specs.promises.Walk.{Ranges, SeparatorFound, RowFound, RowsFound};

use crate::fields::field;
use tables::{File, Form, first_column, most_rows, width};

const LF: u8 = 0x0A;

pub const CR: u8 = 0x0D;

pub const COMMA: u8 = 0x2C;

// Lays down the rows of `s`, to the file's end, and answers how many there are.
pub fn lay_rows(
    file: File,
    s: &[u8],
    forms: &[Form],
    minima: &[u64],
    maxima: &[u64],
    cells: &mut [u64],
) -> Option<usize>
    requires ranges { Ranges forms.now minima.now maxima.now }
    requires file_in_bounds { room file ≤ length cells.old }
    ensures { IfSome result (RowsFound file s.now cells.old cells.new) }
{
    let columns = width(file);
    let most = most_rows(file);
    let mut rest = s;
    let mut at = 0;
    let mut k = 0;
    while 0 < rest.len() {
        if most <= k {
            return None;
        }
        let next = lay_row(file, rest, forms, minima, maxima, &mut cells[at..])?;
        rest = &rest[next..];
        at += columns;
        k += 1;
    }
    Some(k)
}

// Lays down the row at the start of `s`, and answers where what follows it begins.
fn lay_row(
    file: File,
    s: &[u8],
    forms: &[Form],
    minima: &[u64],
    maxima: &[u64],
    out: &mut [u64],
) -> Option<usize>
    requires ranges { Ranges forms.now minima.now maxima.now }
    requires file_in_bounds { table_width file ≤ length out.old }
    ensures { IfSome result (RowFound file s.now out.old out.new) }
{
    let first = first_column(file);
    let columns = width(file);
    let mut rest = s;
    for c in 0..columns {
        let column = first + c;
        let found = field(forms[column], minima[column], maxima[column], rest)?;
        out[c] = found.cell;
        let next = separator(rest, found.next, c + 1 < columns)?;
        rest = &rest[next..];
    }
    Some(s.len() - rest.len())
}

// Behind the separator at a place: a COMMA where more fields of the record follow, else its end.
fn separator(s: &[u8], at: usize, more: bool) -> Option<usize>
    ensures { IfSome result (SeparatorFound s.now at more) }
{
    if more {
        return comma_end(s, at);
    }
    record_end(s, at)
}

fn comma_end(s: &[u8], at: usize) -> Option<usize>
    ensures { IfSome result (SeparatorFound s.now at true) }
{
    if s.len() <= at {
        return None;
    }
    if s[at] != COMMA {
        return None;
    }
    Some(at + 1)
}

// Behind CR LF, or at the file's end.
fn record_end(s: &[u8], at: usize) -> Option<usize>
    ensures { IfSome result (SeparatorFound s.now at false) }
{
    let end = s.len();
    if end <= at {
        return Some(end);
    }
    if end - at < 2 {
        return None;
    }
    if s[at] != CR {
        return None;
    }
    if s[at + 1] != LF {
        return None;
    }
    Some(at + 2)
}
