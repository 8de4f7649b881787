// The bytes of a file, put together. Assumes nothing.
ghost use Rattle.std.specs.Prelude.{◌≤◌, length};

use crate::escapes::put;
use crate::lines::{BLANK, LF};
use tables::{
    CONSTRAINT_HEADER, CURVES_HEADER, File, PARENTS_HEADER, SCHEDULES_HEADER, SUPPLY_HEADER,
};
use texts::{after, behind, first};

// The most times that a row may be wanted.
const MOST: u64 = 9999;

// Writes the right header.
pub fn put_header(file: File, out: &mut [u8]) -> usize
    ensures { result ≤ length out.new }
{
    match file {
        File::Constraint => put(&CONSTRAINT_HEADER, out),
        File::Supply => put(&SUPPLY_HEADER, out),
        File::Schedules => put(&SCHEDULES_HEADER, out),
        File::Curves => put(&CURVES_HEADER, out),
        File::Parents => put(&PARENTS_HEADER, out),
    }
}

// Writes what `N ROW BYTES` stands for: ROW N times over, and BYTES behind it, which may be missing.
pub fn put_many(text: &[u8], out: &mut [u8]) -> usize
    ensures { result ≤ length out.new }
{
    let Some(count) = numeral::read(first(text, BLANK), 0, MOST) else {
        return out.len();
    };
    let row = after(text, BLANK);
    let mut at = repeat(count, first(row, BLANK), out);
    at += put(after(row, BLANK), &mut out[at..]);
    at
}

// Writes what a text stands for so many times.
fn repeat(count: u64, text: &[u8], out: &mut [u8]) -> usize
    ensures { result ≤ length out.new }
{
    let mut at = 0;
    for _ in 0..count {
        at += put(text, &mut out[at..]);
    }
    at
}

// Writes the right header, and the rows that are indented at the start of a text.
pub fn put_file(file: File, text: &[u8], out: &mut [u8]) -> usize
    ensures { result ≤ length out.new }
{
    let mut at = put_header(file, out);
    at += put_indented(text, &mut out[at..]);
    at
}

// Writes the lines at the start of a text that are indented by two blanks, without these and with
// CR LF behind each.
fn put_indented(text: &[u8], out: &mut [u8]) -> usize
    ensures { result ≤ length out.new }
{
    let mut at = 0;
    let mut rest = text;
    while 0 < rest.len() {
        if rest[0] != BLANK {
            return at;
        }
        at += put_row(first(rest, LF), &mut out[at..]);
        let next = behind(rest, LF);
        rest = &rest[next..];
    }
    at
}

fn put_row(line: &[u8], out: &mut [u8]) -> usize
    ensures { result ≤ length out.new }
{
    let mut at = put(after(after(line, BLANK), BLANK), out);
    at += put(b"\r\n", &mut out[at..]);
    at
}
