// A unit's supply rows.
ghost use Rattle.std.specs.Prelude.{◌≡◌, ℕ, ◌<◌, true};
ghost use Rattle.base.specs.Search.{any};
ghost use Rattle.cells.specs.promises.Views.{supply_at};
ghost use Rattle.offers.specs.promises.Ranges.{SupplyRowAt, SupplyCells};
ghost use Rattle.outcome.specs.Decision.{of_unit};
ghost use Rattle.decision.specs.promises.Units.{UnitFound, HasWanted};
ghost use Rattle.tables.specs.promises.FlatRows.{supply_rows};

use cells::supply::{UNIT, WIDTH};

// The place of the first of the unit's rows.
pub fn row_of(cells: &[u64], n: usize, unit: u64) -> usize
    requires supply_cells { SupplyCells n cells.now }
    requires cells_value { any (of_unit unit) (supply_rows n cells.now) ≡ true }
    ensures { UnitFound unit n cells.now result }
{
    let last = n - 1;
    for row in 0..last {
        if is_of(cells, row, unit) {
            return row;
        }
    }
    last
}

// Whether one of the unit's rows is wanted, the first of which is at `found`. The test is of a row's
// place.
pub fn has_wanted<F: Fn(usize) -> bool>(
    cells: &[u64],
    n: usize,
    unit: u64,
    found: usize,
    is_wanted: F,
) -> bool
    requires supply_cells { SupplyCells n cells.now }
    requires unit_found { UnitFound unit n cells.now found }
    requires callable { (k : ℕ) → k < n → F.pre is_wanted k }
    ensures { HasWanted (F.post is_wanted) unit n cells.now result }
{
    for row in found..n {
        if is_of(cells, row, unit) && is_wanted(row) {
            return true;
        }
    }
    false
}

fn is_of(cells: &[u64], row: usize, unit: u64) -> bool
    requires { SupplyRowAt cells.now row }
    ensures { result ≡ of_unit unit (supply_at cells.now row) }
{
    cells[row * WIDTH + UNIT] == unit
}
