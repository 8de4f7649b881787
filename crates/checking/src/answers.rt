// The answer for n schedule rows, by what is at fault. Assumes nothing.
ghost use Rattle.std.specs.Prelude.{◌≡◌, option_map};
ghost use Rattle.tables.specs.declared.files.File.TheVariants.{Schedules};
ghost use Rattle.tables.specs.Refusals.{refused as reading_refused};
ghost use Rattle.checking.specs.promises.Alone.{rows_unless};

use crate::refusals::refused;
use tables::{File, Refusal};

// The rows, or the refusal with the record or unit at fault.
pub fn answer(number: u64, fault: Option<u64>, n: usize) -> Result<usize, Refusal>
    ensures { result ≡ rows_unless (option_map (reading_refused number Schedules) fault) n }
{
    match fault {
        Some(place) => Err(refused(number, File::Schedules, place)),
        None => Ok(n),
    }
}
