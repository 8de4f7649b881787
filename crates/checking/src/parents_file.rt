// Parents: the first of its refusals, or the rows of supply by groups, in place. A file of no bytes counts
// as its header alone. Assumes nothing of the bytes.
ghost use Rattle.affiliates.specs.promises.Laying.{ParentCells, SupplierCells};
ghost use Rattle.checking.specs.promises.Parents.{ParentsChecked, RowsGrouped};
ghost use Rattle.tables.specs.promises.FlatRows.{parent_rows};

use crate::lengths::PARENT_CELLS;
use crate::refusals::{GIVEN_TWICE, RINGED, refused};
use affiliates::{PLACES, group, lay_parents, ringed};
use tables::{File, Refusal};

// Reads parents, and puts the heads of their chains into the first `n` rows of supply.
pub fn check_parents(parents: &[u8], supply: &mut [u64], n: usize) -> Result<usize, Refusal>
    requires { SupplierCells n supply.old }
    ensures { ParentsChecked parents.now n supply.old supply.new result }
{
    if parents.len() == 0 {
        return Ok(0);
    }
    let mut cells = [0u64; PARENT_CELLS];
    let count = onepass::read(File::Parents, parents, &mut cells)?;
    group_rows(&cells, count, supply, n)
}

// Holds the rows of parents to 35 and 36, and groups supply by them.
fn group_rows(cells: &[u64], count: usize, supply: &mut [u64], n: usize) -> Result<usize, Refusal>
    requires parent_cells { ParentCells count cells.now }
    requires supplier_cells { SupplierCells n supply.old }
    ensures { RowsGrouped (parent_rows count cells.now) n supply.old supply.new result }
{
    let mut parents = [0u16; PLACES];
    if let Some(twice) = lay_parents(cells, count, &mut parents) {
        return Err(refused(GIVEN_TWICE, File::Parents, twice as u64));
    }
    if let Some(ring) = ringed(cells, count, &parents) {
        return Err(refused(RINGED, File::Parents, ring as u64));
    }
    group(&parents, count, supply, n);
    Ok(count)
}
