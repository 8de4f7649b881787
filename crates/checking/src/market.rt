// Constraint and supply together. Assumes nothing of the bytes.
ghost use Rattle.std.specs.Prelude.{◌≤◌, ◌<◌, length};
ghost use Rattle.tables.specs.promises.Laying.{room};
ghost use Rattle.tables.specs.declared.files.File.TheVariants.{Supply};
ghost use Rattle.supply.specs.Supply.{most_units};
ghost use Rattle.checking.specs.promises.Market.{MarketChecked};

use crate::constraint_file::read_constraint;
use crate::supply_file::read_supply;
use tables::{ConstraintRow, Refusal};

// The constraint's row, and how many rows and units supply has.
#[derive(Clone, Copy)]
pub struct Market {
    pub constraint: ConstraintRow,
    pub rows: usize,
    pub units: usize,
}

// Files constraint and supply: the rows of supply, and its units by rising number, in the lent runs.
pub fn check_market(
    constraint: &[u8],
    supply: &[u8],
    cells: &mut [u64],
    units: &mut [u64],
) -> Result<Market, Refusal>
    requires room_in_bounds { room Supply ≤ length cells.old }
    requires most_units_in_bounds { most_units < length units.old }
    ensures { MarketChecked constraint.now supply.now cells.new units.new result }
{
    let row = read_constraint(constraint)?;
    let supplied = read_supply(supply, cells, units)?;
    Ok(Market {
        constraint: row,
        rows: supplied.rows,
        units: supplied.units,
    })
}
