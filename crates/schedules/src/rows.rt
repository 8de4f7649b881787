// Schedule rows, nine cells each in a flat run, held to each other and to the units of supply.
// Assumes that the run holds as many rows as it is said to.
ghost use Rattle.std.specs.Prelude.{◌≡◌, ◌+◌, ◌*◌, ◌≤◌, ◌<◌, length};
ghost use Rattle.base.specs.Rising.{among};
ghost use Rattle.cells.specs.promises.Views.{schedule_at, schedule_width};
ghost use Rattle.schedules.specs.promises.Answers.{has_row, KnownBefore};
ghost use Rattle.links.specs.promises.Links.{RowsLinked, Linked, LinkedTo, unit_keys, unit_key};
ghost use Rattle.schedules.specs.Schedules.{not_in_supply, unscheduled as schedules_unscheduled};
ghost use Rattle.tables.specs.promises.FlatRows.{schedule_rows};

use cells::schedule::{UNIT, cell};
use links::{ROWS, link_at, unit_key};
use numbers::contains;

// 7: the record of the first row of a unit that is not among these, if there is one. Records count
// from 1.
pub fn not_in_supply(cells: &[u64], n: usize, links: &[u16], units: &[u64]) -> Option<usize>
    requires schedule_width_in_bounds { n * schedule_width ≤ length cells.now }
    requires rows_linked { RowsLinked cells.now n links.now }
    ensures { result ≡ not_in_supply units.now (schedule_rows n cells.now) }
{
    for k in 0..n {
        if !is_known(cells, k, links, units) {
            return Some(k + 1);
        }
    }
    None
}

// Whether the unit of row `k` is among these, where those of the rows before it are: so it is if the row
// is linked to one of its unit.
fn is_known(cells: &[u64], k: usize, links: &[u16], units: &[u64]) -> bool
    requires schedule_width_in_bounds { k * schedule_width + schedule_width ≤ length cells.now }
    requires linked_to { LinkedTo (unit_key cells.now) k links.now }
    requires known_before { KnownBefore units.now cells.now k }
    ensures { result ≡ among (schedule_at cells.now k).unit units.now }
{
    let unit = cell(cells, k, UNIT);
    let left = link_at(links, k);
    if 0 < left {
        if cell(cells, left - 1, UNIT) == unit {
            return true;
        }
    }
    contains(units, unit)
}

// 8: the lowest of the units that has no row, if there is one, where the units rise.
pub fn unscheduled(cells: &[u64], n: usize, links: &[u16], units: &[u64]) -> Option<u64>
    requires schedule_width_in_bounds { n * schedule_width ≤ length cells.now }
    requires rows_linked { RowsLinked cells.now n links.now }
    ensures { result ≡ schedules_unscheduled units.now (schedule_rows n cells.now) }
{
    units
        .iter()
        .copied()
        .find(|&unit| !has_row(cells, n, links, unit))
}

fn has_row(cells: &[u64], n: usize, links: &[u16], unit: u64) -> bool
    requires schedule_width_in_bounds { n * schedule_width ≤ length cells.now }
    requires rows_linked { RowsLinked cells.now n links.now }
    ensures { result ≡ has_row unit (schedule_rows n cells.now) }
{
    let mut left = link_at(links, ROWS + unit_key(unit));
    while 0 < left {
        let k = left - 1;
        if cell(cells, k, UNIT) == unit {
            return true;
        }
        left = link_at(links, k);
    }
    false
}
