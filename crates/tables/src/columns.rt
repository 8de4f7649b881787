// The permitted range of each column, and the cell of a field by it.
ghost use Rattle.std.specs.Prelude.{◌≡◌, ◌+◌, ◌<◌, ◌^◌};
ghost use Rattle.tables.specs.Values.{value, excess as values_excess, one_of};
ghost use Rattle.tables.specs.promises.Columns.{column_count, first_column, column_at};

use crate::files::File;
use crate::kinds::{C, M};

// The columns of all files, one file behind the other.
const COLUMNS: usize = 24;

// The maximum of the hours, of suppliers' numbers, of ecomin, and of costs and prices.
const LATEST_HOUR: u64 = 23;

const HIGHEST_SUPPLIER: u64 = 999;

const HIGHEST_ECOMIN: u64 = 100000;

const HIGHEST_COST: u64 = 370000;

// What a field of a column may hold.
#[derive(Clone, Copy, PartialEq, Eq)]
pub enum Form {
    // A numeral.
    Numeral,
    // A numeral, or `-` and a nonzero numeral; the minimum stands without its minus.
    Signed,
    // One of two letters, the minimum or the maximum.
    Letter,
}

pub const FORM: [Form; COLUMNS] = [
    // hour, relief, cutoff
    Form::Numeral,
    Form::Numeral,
    Form::Numeral,
    // unit, supplier, mw, cost, dfax
    Form::Numeral,
    Form::Numeral,
    Form::Numeral,
    Form::Numeral,
    Form::Signed,
    // unit, schedule, kind, hour, ecomin, price, noload, startup, minrun
    Form::Numeral,
    Form::Numeral,
    Form::Letter,
    Form::Numeral,
    Form::Numeral,
    Form::Numeral,
    Form::Numeral,
    Form::Numeral,
    Form::Numeral,
    // unit, schedule, hour, mw, price
    Form::Numeral,
    Form::Numeral,
    Form::Numeral,
    Form::Numeral,
    Form::Numeral,
    // supplier, parent
    Form::Numeral,
    Form::Numeral,
];

pub const MINIMUM: [u64; COLUMNS] = [
    // hour, relief, cutoff
    0, 1, 1,
    // unit, supplier, mw, cost, dfax
    1, 1, 1, 0, 10000,
    // unit, schedule, kind, hour, ecomin, price, noload, startup, minrun
    1, 1, C, 0, 0, 0, 0, 0, 1,
    // unit, schedule, hour, mw, price
    1, 1, 0, 0, 0,
    // supplier, parent
    1, 1,
];

pub const MAXIMUM: [u64; COLUMNS] = [
    // hour, relief, cutoff
    LATEST_HOUR,
    1000000,
    10000,
    // unit, supplier, mw, cost, dfax
    9999,
    HIGHEST_SUPPLIER,
    100000,
    HIGHEST_COST,
    10000,
    // unit, schedule, kind, hour, ecomin, price, noload, startup, minrun
    9999,
    99,
    M,
    LATEST_HOUR,
    HIGHEST_ECOMIN,
    HIGHEST_COST,
    100000000,
    100000000,
    24,
    // unit, schedule, hour, mw, price
    9999,
    99,
    LATEST_HOUR,
    HIGHEST_ECOMIN,
    HIGHEST_COST,
    // supplier, parent
    HIGHEST_SUPPLIER,
    HIGHEST_SUPPLIER,
];

const MINUS: u8 = 0x2D;

// Where the columns of a file begin.
pub fn first_column(file: File) -> usize
    ensures { result ≡ first_column file }
{
    match file {
        File::Constraint => 0,
        File::Supply => 3,
        File::Schedules => 8,
        File::Curves => 17,
        File::Parents => 22,
    }
}

// The cell of a field in a column, by its text without the quotes around it.
pub fn cell(column: usize, text: &[u8]) -> Option<u64>
    requires { column < column_count }
    ensures { result ≡ value (column_at column) text.now }
{
    let form = FORM[column];
    let minimum = MINIMUM[column];
    let maximum = MAXIMUM[column];
    match form {
        Form::Numeral => numeral::read(text, minimum, maximum),
        Form::Signed => excess(text, minimum, maximum),
        Form::Letter => one_of(text, minimum, maximum),
    }
}

// A signed number in excess of the minimum's size.
fn excess(text: &[u8], minimum: u64, maximum: u64) -> Option<u64>
    requires { minimum + maximum < 2 ^ 64 }
    ensures { result ≡ values_excess minimum maximum text.now }
{
    if text.len() == 0 {
        return None;
    }
    if text[0] == MINUS {
        let below = numeral::read(&text[1..], 1, minimum)?;
        return Some(minimum - below);
    }
    let above = numeral::read(text, 0, maximum)?;
    Some(minimum + above)
}

// One of two letters, as its byte.
fn one_of(text: &[u8], a: u64, b: u64) -> Option<u64>
    ensures { result ≡ one_of a b text.now }
{
    if text.len() != 1 {
        return None;
    }
    let letter = text[0] as u64;
    if letter == a {
        return Some(a);
    }
    if letter == b {
        return Some(b);
    }
    None
}
