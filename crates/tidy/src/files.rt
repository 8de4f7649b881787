// One file that 1 to 6 pass on its own, written tidily: read as the readers of one file alone read it, then copied. Assumes nothing
// of the bytes and the buffer.
ghost use Rattle.tables.specs.declared.files.File.TheVariants.{Constraint, Supply, Schedules};
ghost use Rattle.tidy.specs.Tidy.{tidied};
ghost use Rattle.tidy.specs.promises.Tidies.{Tidies};

use crate::copying::copy_file;
use checking::{
    SCHEDULE_CELLS, SUPPLY_CELLS, UNITS_LENGTH, read_constraint, read_schedules, read_supply,
};
use tables::Refusal;

// A function for each file, since each is read by its own reader into rooms of its own.
pub fn tidy_constraint(bytes: &[u8], out: &mut [u8]) -> Result<usize, Refusal>
    ensures { Tidies (tidied Constraint bytes.now out.old) out.new result }
{
    read_constraint(bytes)?;
    copy_file(bytes, out)
}

pub fn tidy_supply(bytes: &[u8], out: &mut [u8]) -> Result<usize, Refusal>
    ensures { Tidies (tidied Supply bytes.now out.old) out.new result }
{
    let mut cells = [0u64; SUPPLY_CELLS];
    let mut units = [0u64; UNITS_LENGTH];
    read_supply(bytes, &mut cells, &mut units)?;
    copy_file(bytes, out)
}

pub fn tidy_schedules(bytes: &[u8], out: &mut [u8]) -> Result<usize, Refusal>
    ensures { Tidies (tidied Schedules bytes.now out.old) out.new result }
{
    let mut cells = [0u64; SCHEDULE_CELLS];
    let mut links = [0u16; links::LENGTH];
    read_schedules(bytes, &mut cells, &mut links)?;
    copy_file(bytes, out)
}
