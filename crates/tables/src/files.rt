// The files by name, why a call is refused, and a file's sizes by the fixed table.
ghost use Rattle.std.specs.Prelude.{◌≡◌};
ghost use Rattle.tables.specs.Refusals.{refused, bare_refusal};
ghost use Rattle.tables.specs.Table.{table, width as table_width};

use std::fmt;

// Why a call is refused: document 01's number, the file (0 for none) and the place in it. Numbers and no enum: the
// definitions `refused` and `told` and what a host is told say them.
#[derive(Clone, Copy)]
pub struct Refusal {
    pub number: u64,
    pub file: u64,
    pub place: u64,
}

impl Refusal {
    // A refusal of a file at a place.
    pub fn of(number: u64, file: File, place: u64) -> Refusal
        ensures { result ≡ refused number file place }
    {
        Refusal {
            number,
            file: self::number(file),
            place,
        }
    }

    // One for which no file is named.
    pub fn bare(number: u64) -> Refusal
        ensures { result ≡ bare_refusal number }
    {
        Refusal {
            number,
            file: 0,
            place: 0,
        }
    }
}

// Number, file and place, as programs print them.
impl fmt::Display for Refusal {
    ghost use Rattle.std.specs.Prelude.{Some};
    ghost use Rattle.tables.specs.Refusals.{refusal_text};

    ghost output = { λ r. Some (refusal_text r) };

    fn fmt<W: fmt::Write>(&self, f: &mut fmt::Formatter<W>) -> fmt::Result {
        write!(f, "{},{},{}", self.number, self.file, self.place)
    }
}

// A schedule's kind: market-based or cost-based.
#[derive(Clone, Copy, PartialEq, Eq)]
pub enum Kind {
    M,
    C,
}

#[derive(Clone, Copy)]
pub enum File {
    Constraint,
    Supply,
    Schedules,
    Curves,
    Parents,
}

// A file's number in document 01. No `From`: a file has other numbers too, and the name says which is meant.
pub fn number(file: File) -> u64
    ensures { result ≡ (table file).number }
{
    match file {
        File::Constraint => 1,
        File::Supply => 2,
        File::Schedules => 3,
        File::Curves => 4,
        File::Parents => 5,
    }
}

pub fn width(file: File) -> usize
    ensures { result ≡ table_width file }
{
    match file {
        File::Constraint => 3,
        File::Supply => 5,
        File::Schedules => 9,
        File::Curves => 5,
        File::Parents => 2,
    }
}

pub fn fewest_rows(file: File) -> usize
    ensures { result ≡ (table file).fewest_rows }
{
    match file {
        File::Constraint => 1,
        File::Supply => 0,
        File::Schedules => 0,
        File::Curves => 0,
        File::Parents => 0,
    }
}

pub fn most_rows(file: File) -> usize
    ensures { result ≡ (table file).most_rows }
{
    match file {
        File::Constraint => 1,
        File::Supply => 256,
        File::Schedules => 1024,
        File::Curves => 4096,
        File::Parents => 64,
    }
}
