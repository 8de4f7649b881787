// Parts of the supply rows, each by a test of its rows, and the effective supply of a part, added up.
// One sum serves every part that the market asks for.
ghost use Rattle.std.specs.Prelude.{◌≡◌, ℕ, ◌<◌};
ghost use Rattle.cells.specs.promises.Views.{supply_at};
ghost use Rattle.offers.specs.promises.Ranges.{SupplyRowAt, SupplyCells};
ghost use Rattle.market.specs.Clearing.{eligible_up_to};
ghost use Rattle.market.specs.Parties.{relevant_of};
ghost use Rattle.market.specs.promises.Parts.{AddsUp};

use crate::parties::party;
use offers::{cost_beside, effective_supply, is_eligible, is_relevant};

// The effective supply of a part of the first `n` rows: of those at whose places `is_in` holds.
pub fn supply_of<F: Fn(usize) -> bool>(cells: &[u64], n: usize, is_in: F) -> u64
    requires supply_cells { SupplyCells n cells.now }
    requires callable { (k : ℕ) → k < n → F.pre is_in k }
    ensures { AddsUp (F.post is_in) n cells.now result }
{
    let mut sum = 0;
    for row in 0..n {
        if is_in(row) {
            sum += effective_supply(cells, row);
        }
    }
    sum
}

pub fn is_up_to(cells: &[u64], row: usize, limit: usize, cutoff: u64) -> bool
    requires supply_row_at { SupplyRowAt cells.now row }
    requires supply_row_at_2 { SupplyRowAt cells.now limit }
    ensures { result ≡ eligible_up_to cutoff (supply_at cells.now limit) (supply_at cells.now row) }
{
    if cost_beside(cells, limit, row) <= cost_beside(cells, row, limit) {
        return is_eligible(cells, row, cutoff);
    }
    false
}

// The party is asked first, since few rows are of one.
pub fn is_relevant_of(cells: &[u64], row: usize, clearing: usize, cutoff: u64, k: u64) -> bool
    requires supply_row_at { SupplyRowAt cells.now row }
    requires supply_row_at_2 { SupplyRowAt cells.now clearing }
    ensures { result ≡ relevant_of cutoff (supply_at cells.now clearing) k (supply_at cells.now row) }
{
    if party(cells, row) == k {
        return is_relevant(cells, row, clearing, cutoff);
    }
    false
}
