// Refusal 33: the first point that doesn't rise above the one before it of its curve, or is one too many.
// Each curve is known by the place of its points, with its last record and its points so far.
ghost use Rattle.std.specs.Prelude.{◌≡◌, ◌+◌, ◌*◌, ◌≤◌, ◌<◌, length};
ghost use Rattle.cells.specs.promises.Views.{point_width};
ghost use Rattle.links.specs.promises.Links.{most_linked, Unlinked};
ghost use Rattle.curves.specs.promises.Placing.{PointCells, CurvePlaces, OrderFound, breaks_behind};

use cells::point;
use links::link_at;

// The most points that a curve may have.
const MOST_POINTS: usize = 10;

// The first record out of order, if there is one. Records count from 1. Where there is none, the last
// record of each curve stands at its place.
pub fn disordered(
    points: &[u64],
    m: usize,
    places: &[u16],
    lasts: &mut [u16],
    counts: &mut [u16],
) -> Option<usize>
    requires point_cells { PointCells m points.now }
    requires curve_places { CurvePlaces m points.now places.now }
    requires most_linked_in_bounds { most_linked < length lasts.old }
    requires unlinked { Unlinked lasts.old }
    requires most_linked_in_bounds_2 { most_linked < length counts.old }
    requires unlinked_2 { Unlinked counts.old }
    ensures { OrderFound m points.now places.now lasts.new result }
{
    for i in 0..m {
        let place = link_at(places, i);
        let count = link_at(counts, place);
        if breaks(points, i, link_at(lasts, place), count) {
            return Some(i + 1);
        }
        lasts[place] = (i + 1) as u16;
        counts[place] = (count + 1) as u16;
    }
    None
}

// Whether point `i` breaks the order behind record `last` of its curve, 0 for none, with so many points
// before it.
fn breaks(points: &[u64], i: usize, last: usize, count: usize) -> bool
    requires point_width_in_bounds { i * point_width + point_width ≤ length points.now }
    requires point_width_in_bounds_2 { last * point_width ≤ length points.now }
    ensures { result ≡ breaks_behind points.now i last count }
{
    if last == 0 {
        return false;
    }
    if point::cell(points, i, point::MW) <= point::cell(points, last - 1, point::MW) {
        return true;
    }
    if point::cell(points, i, point::PRICE) <= point::cell(points, last - 1, point::PRICE) {
        return true;
    }
    MOST_POINTS <= count
}
