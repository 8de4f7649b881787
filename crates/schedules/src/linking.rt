// Schedule rows linked by their unit, and by their unit and schedule. Assumes that the run holds as
// many rows as it is said to, and nothing of the cells.
ghost use Rattle.std.specs.Prelude.{◌*◌, ◌≤◌, length};
ghost use Rattle.cells.specs.promises.Views.{schedule_width};
ghost use Rattle.links.specs.promises.Links.{most_linked, links_length, Unlinked, RowsLinked};

use cells::schedule::{SCHEDULE, UNIT, cell};
use links::link_row;

pub fn link_rows(cells: &[u64], n: usize, links: &mut [u16])
    requires n_le_most_linked { n ≤ most_linked }
    requires schedule_width_in_bounds { n * schedule_width ≤ length cells.now }
    requires links_length_in_bounds { links_length ≤ length links.old }
    requires unlinked { Unlinked links.old }
    ensures { RowsLinked cells.now n links.new }
{
    for k in 0..n {
        link_row(links, cell(cells, k, UNIT), cell(cells, k, SCHEDULE), k);
    }
}
