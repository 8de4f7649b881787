// One file handed back tidy, for host programs, and how long a buffer for it has to be. Assumes nothing: of the
// file's number, its bytes, the buffer and the report.
ghost use Rattle.std.specs.Prelude.{◌≡◌};
ghost use Rattle.tidy.specs.promises.Tidies.{Tidies};
ghost use Rattle.capping.specs.Exports.{file_numbered, tidied_as, longest_as, TidyTold};

use crate::calls::{count_of, report_on, told_by};
use tables::Refusal;
use tidy::{
    longest_constraint, longest_schedules, longest_supply, tidy_constraint, tidy_schedules,
    tidy_supply,
};

// The files by number, as C has them.
const CONSTRAINT: u64 = 1;

const SUPPLY: u64 = 2;

const SCHEDULES: u64 = 3;

// The header differs.
const MISFIT: u64 = 2;

// Writes the file tidily, unless it is refused as far as 6. Answers how many bytes were written, 0 where it is
// refused; the report is number, file and place, all 0 where it is accepted.
#[unsafe(no_mangle)]
pub extern "C" fn capping_tidy(
    file: u64,
    bytes: &[u8],
    tidy: &mut [u8],
    report: &mut [u64; 3],
) -> u64
    ensures { TidyTold (tidied_as (file_numbered file) bytes.now tidy.old) tidy.new report.new result }
{
    let tidied = tidy_numbered(file, bytes, tidy);
    report_on(told_by(tidied), report);
    count_of(tidied)
}

fn tidy_numbered(file: u64, bytes: &[u8], tidy: &mut [u8]) -> Result<usize, Refusal>
    ensures { Tidies (tidied_as (file_numbered file) bytes.now tidy.old) tidy.new result }
{
    if file == CONSTRAINT {
        return tidy_constraint(bytes, tidy);
    }
    if file == SUPPLY {
        return tidy_supply(bytes, tidy);
    }
    if file == SCHEDULES {
        return tidy_schedules(bytes, tidy);
    }
    Err(Refusal::bare(MISFIT))
}

// How many bytes a buffer must have so that no tidy file of this number is refused with 30; 0 where there is no
// such file.
#[unsafe(no_mangle)]
pub extern "C" fn capping_longest_tidy(file: u64) -> u64
    ensures { result ≡ longest_as (file_numbered file) }
{
    if file == CONSTRAINT {
        return longest_constraint() as u64;
    }
    if file == SUPPLY {
        return longest_supply() as u64;
    }
    if file == SCHEDULES {
        return longest_schedules() as u64;
    }
    0
}
