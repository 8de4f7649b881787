// Supply rows by groups: the head of each row's supplier in its place. Heads are found once for each
// different supplier.
ghost use Rattle.std.specs.Prelude.{◌≡◌, ◌≤◌};
ghost use Rattle.tables.specs.Table.{highest_supplier};
ghost use Rattle.tables.specs.promises.FlatRows.{supply_rows};
ghost use Rattle.affiliates.specs.Affiliates.{head_from};
ghost use Rattle.affiliates.specs.promises.Laying.{SupplierCells, ParentRun, HeadsIn, parent_in, headed};

use crate::chains::head;
use crate::parents::{PLACES, at_place};
use cells::supply::{SUPPLIER, WIDTH};

// Puts the heads into the first `n` rows of supply, by the parents of so many rows.
pub fn group(parents: &[u16], rows: usize, supply: &mut [u64], n: usize)
    requires parent_run { ParentRun parents.now }
    requires supplier_cells { SupplierCells n supply.old }
    ensures { supply_rows n supply.new ≡ headed parents.now rows (supply_rows n supply.old) }
{
    let mut heads = [0u16; PLACES];
    group_rows(parents, rows, &mut heads, supply, n);
}

// The same, with a lent run for the heads that are found.
fn group_rows(parents: &[u16], rows: usize, heads: &mut [u16], supply: &mut [u64], n: usize)
    requires parent_run { ParentRun parents.now }
    requires heads_in { HeadsIn parents.now rows heads.old }
    requires supplier_cells { SupplierCells n supply.old }
    ensures { supply_rows n supply.new ≡ headed parents.now rows (supply_rows n supply.old) }
{
    for i in 0..n {
        let found = head_once(parents, rows, heads, supply[i * WIDTH + SUPPLIER]);
        supply[i * WIDTH + SUPPLIER] = found;
    }
}

// The head of a supplier's chain, which is followed where it isn't known yet.
fn head_once(parents: &[u16], rows: usize, heads: &mut [u16], supplier: u64) -> u64
    requires parent_run { ParentRun parents.now }
    requires heads_in { HeadsIn parents.now rows heads.old }
    requires supplier_le_highest_supplier { supplier ≤ highest_supplier }
    ensures value { result ≡ head_from (parent_in parents.now) rows supplier }
    ensures heads_in_2 { HeadsIn parents.now rows heads.new }
{
    let known = at_place(heads, supplier);
    if known != 0 {
        return known;
    }
    let found = head(parents, rows, supplier);
    heads[supplier as usize] = found as u16;
    found
}
