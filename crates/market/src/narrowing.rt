// The search for the clearing cost, which is kept between two bounds. A row between them is tried,
// and becomes one of them; any other costs two comparisons.
ghost use Rattle.std.specs.Prelude.{◌≡◌, ◌<◌};
ghost use Rattle.cells.specs.promises.Views.{supply_at};
ghost use Rattle.offers.specs.promises.Ranges.{SupplyRowAt, SupplyCells};
ghost use Rattle.market.specs.promises.Narrowing.{counts as narrowing_counts, cheaper, between, Bounding, Narrows, ClearingCost};

use crate::parts::{is_up_to, supply_of};
use offers::{cost_beside, effective_supply, is_eligible};

// The most rows.
const ROWS: usize = 256;

// The rows are visited by steps of this length. It has no factor in common with their number, so
// that each is visited, and is near its golden section, so that a few visits spread evenly: rows in
// the order of their costs are then tried a dozen times and not one after the other.
const STRIDE: usize = 157;

// Each bound is the place of a row whose cost it is; past the rows there is none, as the definition
// `clearing` has it.
#[derive(Clone, Copy)]
pub struct Bounds {
    pub low: usize,
    pub high: usize,
}

// The place of a row of the clearing cost, or `n` where no row clears.
pub fn clearing_cost(cells: &[u64], n: usize, cutoff: u64, need: u64) -> usize
    requires supply_cells { SupplyCells n cells.now }
    requires need_nonzero { 0 < need }
    ensures { ClearingCost n cells.now cutoff need result }
{
    let mut bounds = Bounds { low: n, high: n };
    for turn in 0..ROWS {
        bounds = narrowed(cells, n, cutoff, need, bounds, turn * STRIDE % ROWS);
    }
    bounds.high
}

// The bounds once the row at a place has been looked at.
fn narrowed(cells: &[u64], n: usize, cutoff: u64, need: u64, bounds: Bounds, row: usize) -> Bounds
    requires supply_cells { SupplyCells n cells.now }
    requires bounding { Bounding n cells.now cutoff need bounds }
    ensures { Narrows n cells.now cutoff need bounds row result }
{
    if n <= row {
        return bounds;
    }
    if !is_between(cells, n, cutoff, bounds, row) {
        return bounds;
    }
    if supply_of(cells, n, |other| is_up_to(cells, other, row, cutoff)) < need {
        return Bounds {
            low: row,
            high: bounds.high,
        };
    }
    Bounds {
        low: bounds.low,
        high: row,
    }
}

// Whether the row at a place is to be tried.
fn is_between(cells: &[u64], n: usize, cutoff: u64, bounds: Bounds, row: usize) -> bool
    requires supply_cells { SupplyCells n cells.now }
    requires row_lt_n { row < n }
    ensures { result ≡ between n cells.now cutoff bounds row }
{
    if counts(cells, row, cutoff) {
        if is_cheaper(cells, n, bounds.low, row) {
            return is_cheaper(cells, n, row, bounds.high);
        }
    }
    false
}

// Rows that supply nothing aren't tried: some row of the clearing cost supplies something.
fn counts(cells: &[u64], row: usize, cutoff: u64) -> bool
    requires { SupplyRowAt cells.now row }
    ensures { result ≡ narrowing_counts cutoff (supply_at cells.now row) }
{
    if is_eligible(cells, row, cutoff) {
        return 0 < effective_supply(cells, row);
    }
    false
}

// Whether the cost of the one row is below that of the other, or there is no such row.
fn is_cheaper(cells: &[u64], n: usize, row: usize, other: usize) -> bool
    requires { SupplyCells n cells.now }
    ensures { result ≡ cheaper n cells.now row other }
{
    if row < n {
        if other < n {
            return cost_beside(cells, other, row) < cost_beside(cells, row, other);
        }
    }
    true
}
