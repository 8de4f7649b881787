// Chains of parents, followed in a run of parents, each step with one row fewer left to use.
ghost use Rattle.std.specs.Prelude.{◌≡◌, ◌≤◌};
ghost use Rattle.tables.specs.Table.{highest_supplier};
ghost use Rattle.tables.specs.promises.FlatRows.{parent_rows};
ghost use Rattle.affiliates.specs.Affiliates.{head_from, comes_back, ringed as affiliates_ringed};
ghost use Rattle.affiliates.specs.promises.Laying.{ParentCells, ParentRun, ParentsIn, parent_in};

use crate::parents::at_place;
use cells::parent::{SUPPLIER, WIDTH};

// The first record whose own chain comes back to its supplier. Records count from 1.
pub fn ringed(cells: &[u64], n: usize, parents: &[u16]) -> Option<usize>
    requires parent_cells { ParentCells n cells.now }
    requires parents_in { ParentsIn (parent_rows n cells.now) parents.now }
    ensures { result ≡ affiliates_ringed (parent_rows n cells.now) }
{
    for i in 0..n {
        let supplier = cells[i * WIDTH + SUPPLIER];
        if comes_back(parents, n, supplier, supplier) {
            return Some(i + 1);
        }
    }
    None
}

// Whether the chain comes back to a supplier from the one at which it is, with so many rows left.
fn comes_back(parents: &[u16], left: usize, at: u64, supplier: u64) -> bool
    requires parent_run { ParentRun parents.now }
    requires at_le_highest_supplier { at ≤ highest_supplier }
    ensures { result ≡ comes_back (parent_in parents.now) supplier left at }
{
    if left == 0 {
        return false;
    }
    let parent = at_place(parents, at);
    if parent == 0 {
        return false;
    }
    if parent == supplier {
        return true;
    }
    comes_back(parents, left - 1, parent, supplier)
}

// The head of the chain from a supplier, with so many rows left.
pub fn head(parents: &[u16], left: usize, supplier: u64) -> u64
    requires parent_run { ParentRun parents.now }
    requires supplier_le_highest_supplier { supplier ≤ highest_supplier }
    ensures value { result ≡ head_from (parent_in parents.now) left supplier }
    ensures upper_bound { result ≤ highest_supplier }
{
    if left == 0 {
        return supplier;
    }
    let parent = at_place(parents, supplier);
    if parent == 0 {
        return supplier;
    }
    head(parents, left - 1, parent)
}
