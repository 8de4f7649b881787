// The parents of suppliers in a run that has a place for each number that a supplier may have, so that
// a step of a chain is one look: its parent stands there, 0 for none. This is fixed memory, and an `Option`
// would take twice the room.
ghost use Rattle.std.specs.Prelude.{◌≡◌, ◌<◌, length, get_or};
ghost use Rattle.tables.specs.Table.{highest_supplier};
ghost use Rattle.tables.specs.promises.FlatRows.{parent_rows};
ghost use Rattle.affiliates.specs.promises.Laying.{ParentCells, Cleared, ParentsLaid};

use cells::parent::{PARENT, SUPPLIER, WIDTH};

// A place for each number that a supplier may have, and for 0.
pub const PLACES: usize = 1000;

// Lays down the parent of each supplier, as far as the first record that gives one a second parent,
// and answers that record. Records count from 1.
pub fn lay_parents(cells: &[u64], n: usize, parents: &mut [u16]) -> Option<usize>
    requires parent_cells { ParentCells n cells.now }
    requires highest_supplier_in_bounds { highest_supplier < length parents.old }
    requires cleared { Cleared parents.old }
    ensures { ParentsLaid (parent_rows n cells.now) parents.new result }
{
    for i in 0..n {
        let supplier = cells[i * WIDTH + SUPPLIER];
        if at_place(parents, supplier) != 0 {
            return Some(i + 1);
        }
        parents[supplier as usize] = cells[i * WIDTH + PARENT] as u16;
    }
    None
}

// What stands at a supplier's place.
pub fn at_place(run: &[u16], supplier: u64) -> u64
    requires { supplier < length run.now }
    ensures { result ≡ get_or run.now supplier 0 }
{
    run[supplier as usize] as u64
}
