// Refusal 34: the first record that is its curve's last and lies below the ecomin of its row.
ghost use Rattle.std.specs.Prelude.{◌≡◌, eqb, ltb, length, ◌&&◌, ◌+◌, ◌*◌, ◌≤◌, ◌<◌};
ghost use Rattle.cells.specs.promises.Views.{schedule_at, schedule_width, point_at, point_width};
ghost use Rattle.tables.specs.promises.FlatRows.{schedule_rows, point_rows};
ghost use Rattle.curves.specs.Curves.{ends_low};
ghost use Rattle.curves.specs.promises.Placing.{PointCells, RowCells, Placed, LastsIn};

use cells::{point, schedule};
use links::link_at;

// That record, if there is one. Records count from 1.
pub fn ends_low(
    points: &[u64],
    m: usize,
    places: &[u16],
    lasts: &[u16],
    cells: &[u64],
    n: usize,
) -> Option<usize>
    requires point_cells { PointCells m points.now }
    requires row_cells { RowCells n cells.now }
    requires placed { Placed m points.now n cells.now places.now }
    requires lasts_in { LastsIn places.now lasts.now m }
    ensures { result ≡ ends_low (schedule_rows n cells.now) (point_rows m points.now) }
{
    for i in 0..m {
        let place = link_at(places, i);
        if is_low_end(points, i, link_at(lasts, place), cells, place - 1) {
            return Some(i + 1);
        }
    }
    None
}

// Whether point `i` is its curve's last, by the curve's last record, and lies below the ecomin of row `k`.
fn is_low_end(points: &[u64], i: usize, last: usize, cells: &[u64], k: usize) -> bool
    requires point_width_in_bounds { i * point_width + point_width ≤ length points.now }
    requires schedule_width_in_bounds { k * schedule_width + schedule_width ≤ length cells.now }
    ensures { result ≡ (eqb last (i + 1) && ltb (point_at points.now i).mw (schedule_at cells.now k).ecomin) }
{
    if last != i + 1 {
        return false;
    }
    point::cell(points, i, point::MW) < schedule::cell(cells, k, schedule::ECOMIN)
}
