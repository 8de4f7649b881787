// Schedule rows at the prices of their curves, in place. Points are taken from the last to the first, so
// that the price left in a row is that of the first of its points that reaches its ecomin.
ghost use Rattle.std.specs.Prelude.{◌≡◌, ◌+◌, ◌*◌, ◌≤◌, ◌<◌, length};
ghost use Rattle.cells.specs.promises.Views.{schedule_width, point_width};
ghost use Rattle.curves.specs.promises.Placing.{PointCells, RowCells, Placed};
ghost use Rattle.curves.specs.promises.Pricing.{RowsPriced, price_stored};

use cells::{point, schedule};
use links::link_at;

// Puts the price at its ecomin into each of `n` rows that has points.
pub fn price_rows(points: &[u64], m: usize, places: &[u16], cells: &mut [u64], n: usize)
    requires point_cells { PointCells m points.now }
    requires row_cells { RowCells n cells.old }
    requires placed { Placed m points.now n cells.old places.now }
    ensures { RowsPriced m points.now n cells.old cells.new }
{
    for i in (0..m).rev() {
        price_row(points, i, cells, link_at(places, i) - 1);
    }
}

// Puts the price of point `i` into row `k`, whose ecomin it reaches.
fn price_row(points: &[u64], i: usize, cells: &mut [u64], k: usize)
    requires point_width_in_bounds { i * point_width + point_width ≤ length points.now }
    requires schedule_width_in_bounds { k * schedule_width + schedule_width ≤ length cells.old }
    ensures { cells.new ≡ price_stored points.now i k cells.old }
{
    if schedule::cell(cells, k, schedule::ECOMIN) <= point::cell(points, i, point::MW) {
        cells[k * schedule::WIDTH + schedule::PRICE] = point::cell(points, i, point::PRICE);
    }
}
