// Headers: the names of a file's columns, field by field, against the first record of a file.
ghost use Rattle.std.specs.Prelude.{◌≡◌, length, drop, ◌≤◌, false, take};
ghost use Rattle.base.specs.Text.{same};
ghost use Rattle.csv_text.specs.promises.Fields.{extent, inner, unread};
ghost use Rattle.tables.specs.promises.Laying.{HeaderRead, FieldsCompared};

use crate::files::{File, width};
use texts::same_text;

// The header record of each file.
pub const CONSTRAINT_HEADER: [u8; 20] = *b"hour,relief,cutoff\r\n";

pub const SUPPLY_HEADER: [u8; 28] = *b"unit,supplier,mw,cost,dfax\r\n";

pub const SCHEDULES_HEADER: [u8; 60] =
    *b"unit,schedule,kind,hour,ecomin,price,noload,startup,minrun\r\n";

pub const CURVES_HEADER: [u8; 29] = *b"unit,schedule,hour,mw,price\r\n";

pub const PARENTS_HEADER: [u8; 17] = *b"supplier,parent\r\n";

// A header that was read: whether every field has its name, and where the first row begins. No `Option`:
// the place is told in either case.
#[derive(Clone, Copy)]
pub struct Header {
    pub same: bool,
    pub next: usize,
}

pub fn read_header(file: File, s: &[u8]) -> Header
    ensures { HeaderRead file s.now result }
{
    match file {
        File::Constraint => compare_fields(s, &CONSTRAINT_HEADER, width(file)),
        File::Supply => compare_fields(s, &SUPPLY_HEADER, width(file)),
        File::Schedules => compare_fields(s, &SCHEDULES_HEADER, width(file)),
        File::Curves => compare_fields(s, &CURVES_HEADER, width(file)),
        File::Parents => compare_fields(s, &PARENTS_HEADER, width(file)),
    }
}

// Compares the first `count` fields of `s` with those of `names`.
fn compare_fields(s: &[u8], names: &[u8], count: usize) -> Header
    ensures { FieldsCompared count s.now names.now result }
{
    let mut rest = s;
    let mut left = names;
    let mut same = true;
    for _ in 0..count {
        same &= same_field(rest, left);
        let next = next_field(rest);
        rest = &rest[next..];
        let further = next_field(left);
        left = &left[further..];
    }
    Header {
        same: same,
        next: s.len() - rest.len(),
    }
}

// Whether the fields at the start of `s` and of `t` have the same text inside their quotes.
fn same_field(s: &[u8], t: &[u8]) -> bool
    ensures { result ≡ same (inner (take (extent false s.now) s.now)) (inner (take (extent false t.now) t.now)) }
{
    let n = csv_text::field_length(s);
    let m = csv_text::field_length(t);
    same_text(csv_text::inner(&s[0..n]), csv_text::inner(&t[0..m]))
}

// Where what follows the field at the start of `s` begins.
fn next_field(s: &[u8]) -> usize
    ensures s_value { drop result s.now ≡ unread s.now (extent false s.now) }
    ensures upper_bound { result ≤ length s.now }
{
    let n = csv_text::field_length(s);
    csv_text::after_field(s, n)
}
