// What a supply row is, from its cells: its supplier, effective supply, eligibility, and its effective
// cost beside another row's.
ghost use Rattle.std.specs.Prelude.{◌≡◌};
ghost use Rattle.cells.specs.promises.Views.{supply_at};
ghost use Rattle.offers.specs.promises.Ranges.{SupplyRowAt};
ghost use Rattle.offers.specs.Supply.{abs_dfax, supply, eligible, cost_beside};

use crate::offer::capped;
use cells::supply::{COST, DFAX, MW, SUPPLIER, WIDTH};

// The cell of a dfax of 0.
const NO_DFAX: u64 = 10000;

pub fn supplier(cells: &[u64], row: usize) -> u64
    requires { SupplyRowAt cells.now row }
    ensures { result ≡ (supply_at cells.now row).supplier }
{
    cells[row * WIDTH + SUPPLIER]
}

fn abs_dfax(cells: &[u64], row: usize) -> u64
    requires { SupplyRowAt cells.now row }
    ensures { result ≡ abs_dfax (supply_at cells.now row) }
{
    let dfax = cells[row * WIDTH + DFAX];
    if dfax < NO_DFAX {
        return NO_DFAX - dfax;
    }
    dfax - NO_DFAX
}

pub fn effective_supply(cells: &[u64], row: usize) -> u64
    requires { SupplyRowAt cells.now row }
    ensures { result ≡ supply (supply_at cells.now row) }
{
    let mw = cells[row * WIDTH + MW];
    mw * abs_dfax(cells, row)
}

pub fn is_eligible(cells: &[u64], row: usize, cutoff: u64) -> bool
    requires { SupplyRowAt cells.now row }
    ensures { result ≡ eligible cutoff (supply_at cells.now row) }
{
    cutoff <= abs_dfax(cells, row)
}

// The effective cost of `row`, over the denominator that it has in common with that of `other`.
pub fn cost_beside(cells: &[u64], other: usize, row: usize) -> u64
    requires supply_row_at { SupplyRowAt cells.now other }
    requires supply_row_at_2 { SupplyRowAt cells.now row }
    ensures { result ≡ cost_beside (supply_at cells.now other) (supply_at cells.now row) }
{
    let cost = cells[row * WIDTH + COST];
    capped(cost) * abs_dfax(cells, other)
}
