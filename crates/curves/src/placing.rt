// Refusal 32, and the schedule row of each point, found along the links of its schedule: curves often
// come point behind point, so the row of the point before is tried first.
ghost use Rattle.std.specs.Prelude.{◌≡◌, ◌+◌, ◌*◌, ◌≤◌, ◌<◌, length, IfSome};
ghost use Rattle.cells.specs.promises.Views.{schedule_at, schedule_width, point_at, point_width};
ghost use Rattle.links.specs.promises.Links.{most_linked, Linked};
ghost use Rattle.curves.specs.Curves.{point_of};
ghost use Rattle.curves.specs.promises.Keys.{unit_places, own_keys, row_key};
ghost use Rattle.curves.specs.promises.Placing.{PointCells, RowFound, PointsPlaced};

use crate::keys::{LENGTH, UNIT_PLACES, link_schedules, number_units, own_key};
use cells::{point, schedule};
use links::{ROWS, link_at};

// Lays down the row of each point, as one more than its place, as far as the first record whose schedule
// hour has no row, and answers that record, if there is one. Records count from 1. The units are those that
// rows may be of: others share keys, which only takes longer.
pub fn place_points(
    points: &[u64],
    m: usize,
    cells: &[u64],
    n: usize,
    units: &[u64],
    places: &mut [u16],
) -> Option<usize>
    requires point_cells { PointCells m points.now }
    requires n_le_most_linked { n ≤ most_linked }
    requires schedule_width_in_bounds { n * schedule_width ≤ length cells.now }
    requires m_in_bounds { m ≤ length places.old }
    ensures { PointsPlaced m points.now n cells.now places.new result }
{
    let mut numbers = [0u8; UNIT_PLACES];
    number_units(units, &mut numbers);
    let mut links = [0u16; LENGTH];
    link_schedules(cells, n, &numbers, &mut links);
    place_each(points, m, cells, n, &numbers, &links, places)
}

// The same, one point a turn.
fn place_each(
    points: &[u64],
    m: usize,
    cells: &[u64],
    n: usize,
    numbers: &[u8],
    links: &[u16],
    places: &mut [u16],
) -> Option<usize>
    requires point_cells { PointCells m points.now }
    requires schedule_width_in_bounds { n * schedule_width ≤ length cells.now }
    requires unit_places_in_bounds { unit_places ≤ length numbers.now }
    requires linked { Linked (row_key numbers.now cells.now) own_keys n links.now }
    requires m_in_bounds { m ≤ length places.old }
    ensures { PointsPlaced m points.now n cells.now places.new result }
{
    let mut tried = None;
    for i in 0..m {
        let Some(place) = row_of(points, i, cells, n, numbers, links, tried) else {
            return Some(i + 1);
        };
        places[i] = (place + 1) as u16;
        tried = Some(place);
    }
    None
}

// The place of the row of point `i`, if it has one. The row at a place may be given to try first.
fn row_of(
    points: &[u64],
    i: usize,
    cells: &[u64],
    n: usize,
    numbers: &[u8],
    links: &[u16],
    tried: Option<usize>,
) -> Option<usize>
    requires point_width_in_bounds { i * point_width + point_width ≤ length points.now }
    requires schedule_width_in_bounds { n * schedule_width ≤ length cells.now }
    requires unit_places_in_bounds { unit_places ≤ length numbers.now }
    requires linked { Linked (row_key numbers.now cells.now) own_keys n links.now }
    requires tried_lt_n { IfSome tried (λ k. k < n) }
    ensures { RowFound points.now i n cells.now result }
{
    if let Some(place) = tried {
        if is_of(points, i, cells, place) {
            return Some(place);
        }
    }
    row_along(points, i, cells, n, numbers, links)
}

// The same, along the rows of the point's schedule.
fn row_along(
    points: &[u64],
    i: usize,
    cells: &[u64],
    n: usize,
    numbers: &[u8],
    links: &[u16],
) -> Option<usize>
    requires point_width_in_bounds { i * point_width + point_width ≤ length points.now }
    requires schedule_width_in_bounds { n * schedule_width ≤ length cells.now }
    requires unit_places_in_bounds { unit_places ≤ length numbers.now }
    requires linked { Linked (row_key numbers.now cells.now) own_keys n links.now }
    ensures { RowFound points.now i n cells.now result }
{
    let unit = point::cell(points, i, point::UNIT);
    let key = own_key(numbers, unit, point::cell(points, i, point::SCHEDULE));
    let mut left = link_at(links, ROWS + key);
    while 0 < left {
        let place = left - 1;
        if is_of(points, i, cells, place) {
            return Some(place);
        }
        left = link_at(links, place);
    }
    None
}

// Whether point `i` is of the schedule and hour of row `k`. Hours first: rows along links are mostly of
// the point's schedule.
fn is_of(points: &[u64], i: usize, cells: &[u64], k: usize) -> bool
    requires point_width_in_bounds { i * point_width + point_width ≤ length points.now }
    requires schedule_width_in_bounds { k * schedule_width + schedule_width ≤ length cells.now }
    ensures { result ≡ point_of (schedule_at cells.now k) (point_at points.now i) }
{
    if point::cell(points, i, point::HOUR) != schedule::cell(cells, k, schedule::HOUR) {
        return false;
    }
    if point::cell(points, i, point::SCHEDULE) != schedule::cell(cells, k, schedule::SCHEDULE) {
        return false;
    }
    point::cell(points, i, point::UNIT) == schedule::cell(cells, k, schedule::UNIT)
}
