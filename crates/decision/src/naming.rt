// The suppliers of units as the supply file has them: listed before its rows go by groups, and put into
// the rows of the answer.
ghost use Rattle.std.specs.Prelude.{◌≡◌, map, ◌*◌, ◌≤◌, length, take};
ghost use Rattle.cells.specs.promises.Views.{answer_width};
ghost use Rattle.offers.specs.promises.Ranges.{SupplyCells};
ghost use Rattle.supply.specs.Supply.{units as supply_units};
ghost use Rattle.decision.specs.promises.Naming.{supplier_of, RowsNamed};
ghost use Rattle.decision.specs.promises.Units.{UnitsOf};
ghost use Rattle.tables.specs.promises.FlatRows.{supply_rows};

use crate::units::row_of;
use cells::answer::{SUPPLIER, WIDTH};
use offers::supplier;

// Lists the suppliers of the first `k` units.
pub fn list_suppliers(supply: &[u64], n: usize, units: &[u64], k: usize, suppliers: &mut [u64])
    requires supply_cells { SupplyCells n supply.now }
    requires units_of { UnitsOf k (supply_rows n supply.now) units.now }
    requires k_in_bounds { k ≤ length suppliers.old }
    ensures { take k suppliers.new ≡ map (supplier_of (supply_rows n supply.now)) (supply_units (supply_rows n supply.now)) }
{
    for i in 0..k {
        let row = row_of(supply, n, units[i]);
        suppliers[i] = supplier(supply, row);
    }
}

// Puts them into the first `k` rows of the answer.
pub fn name_suppliers(suppliers: &[u64], k: usize, rows: &mut [u64])
    requires k_in_bounds { k ≤ length suppliers.now }
    requires answer_width_in_bounds { k * answer_width ≤ length rows.old }
    ensures { RowsNamed suppliers.now k rows.old rows.new }
{
    for i in 0..k {
        rows[i * WIDTH + SUPPLIER] = suppliers[i];
    }
}
