// Supply alone: its rows and units in lent runs, or the first of its refusals. Assumes nothing of the
// bytes.
ghost use Rattle.std.specs.Prelude.{◌≤◌, ◌<◌, length};
ghost use Rattle.tables.specs.promises.Laying.{room};
ghost use Rattle.tables.specs.declared.files.File.TheVariants.{Supply};
ghost use Rattle.supply.specs.Supply.{most_units};
ghost use Rattle.checking.specs.promises.Alone.{SupplyChecked};

use crate::refusals::{AT_ODDS, OVER_LIMIT, refused};
use supply::{over_limit, supply_at_odds};
use tables::{File, Refusal};

// One more than the most suppliers that supply may have.
const SUPPLIERS: usize = 33;

// How many rows and how many units supply has.
#[derive(Clone, Copy)]
pub struct Supplied {
    pub rows: usize,
    pub units: usize,
}

// Reads supply, and holds its rows to each other. Its units are listed by rising number.
pub fn read_supply(bytes: &[u8], cells: &mut [u64], units: &mut [u64]) -> Result<Supplied, Refusal>
    requires room_in_bounds { room Supply ≤ length cells.old }
    requires most_units_in_bounds { most_units < length units.old }
    ensures { SupplyChecked bytes.now cells.new units.new result }
{
    let n = onepass::read(File::Supply, bytes, cells)?;
    let mut suppliers = [0u64; SUPPLIERS];
    let counts = over_limit(cells, n, units, &mut suppliers);
    if let Some(over) = counts.place {
        return Err(refused(OVER_LIMIT, File::Supply, over as u64));
    }
    if let Some(odd) = supply_at_odds(cells, n) {
        return Err(refused(AT_ODDS, File::Supply, odd as u64));
    }
    Ok(Supplied {
        rows: n,
        units: counts.units,
    })
}
