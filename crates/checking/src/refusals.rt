// The refusals that go by rows, by their numbers, as `Refusal` of tables has them, and a refusal of a file.
ghost use Rattle.std.specs.Prelude.{◌≡◌};
ghost use Rattle.tables.specs.Refusals.{refused as reading_refused};

use tables::{File, Refusal};

// A unit or a supplier too many.
pub const OVER_LIMIT: u64 = 5;

// A row at odds with an earlier one.
pub const AT_ODDS: u64 = 6;

// A schedule row of a unit that is not in supply.
pub const NOT_IN_SUPPLY: u64 = 7;

// A unit without a schedule.
pub const UNSCHEDULED: u64 = 8;

// A schedule that lacks a needed hour.
pub const LACKING: u64 = 9;

// A point whose schedule hour is not in schedules.
pub const STRAY_POINT: u64 = 32;

// A point out of the order of its curve, or one too many.
pub const DISORDERED: u64 = 33;

// A curve that ends below ecomin.
pub const ENDS_LOW: u64 = 34;

// A supplier given two parents.
pub const GIVEN_TWICE: u64 = 35;

// A chain of parents that returns to its start.
pub const RINGED: u64 = 36;

pub fn refused(number: u64, file: File, place: u64) -> Refusal
    ensures { result ≡ reading_refused number file place }
{
    Refusal {
        number: number,
        file: tables::number(file),
        place: place,
    }
}
