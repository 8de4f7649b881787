// The relevant market: eligible rows whose effective cost is at most 150% of the clearing row's.
ghost use Rattle.std.specs.Prelude.{◌≡◌};
ghost use Rattle.cells.specs.promises.Views.{supply_at};
ghost use Rattle.offers.specs.promises.Ranges.{SupplyRowAt};
ghost use Rattle.offers.specs.Relevant.{relevant};

use crate::rows::{cost_beside, is_eligible};

pub fn is_relevant(cells: &[u64], row: usize, clearing: usize, cutoff: u64) -> bool
    requires supply_row_at { SupplyRowAt cells.now row }
    requires supply_row_at_2 { SupplyRowAt cells.now clearing }
    ensures { result ≡ relevant cutoff (supply_at cells.now clearing) (supply_at cells.now row) }
{
    if is_eligible(cells, row, cutoff) {
        return 2 * cost_beside(cells, clearing, row) <= 3 * cost_beside(cells, row, clearing);
    }
    false
}
