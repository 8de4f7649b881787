// Eligible supply, the need, and the clearing row: the first of the rows of the clearing cost.
ghost use Rattle.std.specs.Prelude.{◌≡◌, ◌≤◌, ◌<◌};
ghost use Rattle.cells.specs.promises.Views.{supply_at};
ghost use Rattle.offers.specs.promises.Ranges.{SupplyRowAt, SupplyCells, most_relief};
ghost use Rattle.market.specs.Clearing.{eligible_supply, need_of, clearing};
ghost use Rattle.market.specs.promises.Narrowing.{eligible_at, first_at};
ghost use Rattle.tables.specs.promises.FlatRows.{supply_rows};

use crate::narrowing::clearing_cost;
use crate::parts::supply_of;
use offers::{cost_beside, is_eligible};

// A dfax of 1, in ten-thousandths.
const WHOLE_DFAX: u64 = 10000;

pub fn eligible_supply(cells: &[u64], n: usize, cutoff: u64) -> u64
    requires { SupplyCells n cells.now }
    ensures { result ≡ eligible_supply cutoff (supply_rows n cells.now) }
{
    supply_of(cells, n, |row| is_eligible(cells, row, cutoff))
}

// The need, in the unit of effective supply, of a relief that the table permits.
pub fn need_of(relief: u64) -> u64
    requires { relief ≤ most_relief }
    ensures { result ≡ need_of relief }
{
    relief * WHOLE_DFAX
}

// The place of the first of the first `n` rows that clears, or `n` where none does, as the definition
// `clearing` has it: no supply is below a need of 0.
pub fn clearing_row(cells: &[u64], n: usize, cutoff: u64, need: u64) -> usize
    requires { SupplyCells n cells.now }
    ensures { result ≡ clearing cutoff need (supply_rows n cells.now) }
{
    if need == 0 {
        return n;
    }
    let row = clearing_cost(cells, n, cutoff, need);
    if n <= row {
        return n;
    }
    first_at(cells, n, cutoff, row)
}

// The place of the first eligible row of the cost of the row at `limit`.
fn first_at(cells: &[u64], n: usize, cutoff: u64, limit: usize) -> usize
    requires supply_cells { SupplyCells n cells.now }
    requires limit_lt_n { limit < n }
    ensures { result ≡ first_at cutoff (supply_at cells.now limit) (supply_rows n cells.now) }
{
    (0..n)
        .find(|row| is_at(cells, *row, limit, cutoff))
        .unwrap_or(n)
}

fn is_at(cells: &[u64], row: usize, limit: usize, cutoff: u64) -> bool
    requires supply_row_at { SupplyRowAt cells.now row }
    requires supply_row_at_2 { SupplyRowAt cells.now limit }
    ensures { result ≡ eligible_at cutoff (supply_at cells.now limit) (supply_at cells.now row) }
{
    if is_eligible(cells, row, cutoff) {
        return cost_beside(cells, limit, row) == cost_beside(cells, row, limit);
    }
    false
}
