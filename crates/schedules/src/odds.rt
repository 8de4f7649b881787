// Refusal 6 over schedule rows: the first row that is at odds with an earlier one, whether it
// breaks the sharing rule of its schedule, repeats an hour or adds a second M schedule. Assumes
// that the run holds as many rows as it is said to.
ghost use Rattle.std.specs.Prelude.{◌≡◌, not, ◌+◌, ◌*◌, ◌≤◌, ◌<◌, length, get_or, drop};
ghost use Rattle.base.specs.Search.{any};
ghost use Rattle.cells.specs.promises.Views.{schedule_at, schedule_width};
ghost use Rattle.schedules.specs.promises.Answers.{alike, both_market, schedules_before, odd_with};
ghost use Rattle.links.specs.promises.Links.{RowsLinked, LinkedTo, Along, unit_links, unit_key, schedule_key};
ghost use Rattle.schedules.specs.Schedules.{schedule_odds, schedules_at_odds};
ghost use Rattle.tables.specs.promises.FlatRows.{schedule_rows};

use cells::schedule::{HOUR, KIND, MINRUN, SCHEDULE, STARTUP, UNIT, cell};
use links::{UNIT_LINKS, link_at};
use tables::M;

// The record of the first row at odds with an earlier one, if there is one. Records count from 1.
pub fn schedules_at_odds(cells: &[u64], n: usize, links: &[u16]) -> Option<usize>
    requires schedule_width_in_bounds { n * schedule_width ≤ length cells.now }
    requires rows_linked { RowsLinked cells.now n links.now }
    ensures { result ≡ schedules_at_odds (schedule_rows n cells.now) }
{
    for k in 0..n {
        if at_odds_before(cells, k, links) {
            return Some(k + 1);
        }
    }
    None
}

// Whether row `k` is at odds with one before it. Only an M row can be so with one of another
// schedule, and a unit has no more M rows than hours in a day before one is at odds.
fn at_odds_before(cells: &[u64], k: usize, links: &[u16]) -> bool
    requires schedule_width_in_bounds { k * schedule_width + schedule_width ≤ length cells.now }
    requires linked_to { LinkedTo (unit_key cells.now) k links.now }
    requires linked_to_2 { LinkedTo (schedule_key cells.now) k (drop unit_links links.now) }
    ensures { result ≡ any (schedule_odds (schedule_at cells.now k)) (schedules_before cells.now k) }
{
    if cell(cells, k, KIND) == M {
        return at_odds_along(cells, k, links);
    }
    at_odds_along(cells, k, &links[UNIT_LINKS..])
}

// Whether row `k` is at odds with one that its links lead to.
fn at_odds_along(cells: &[u64], k: usize, links: &[u16]) -> bool
    requires schedule_width_in_bounds { k * schedule_width + schedule_width ≤ length cells.now }
    requires k_in_bounds { k < length links.now }
    requires along { Along (odd_with cells.now k) k links.now (get_or links.now k 0) }
    ensures { result ≡ any (schedule_odds (schedule_at cells.now k)) (schedules_before cells.now k) }
{
    let mut left = link_at(links, k);
    while 0 < left {
        let j = left - 1;
        if at_odds(cells, k, j) {
            return true;
        }
        left = link_at(links, j);
    }
    false
}

// Whether row `k` is at odds with row `j`. Units first: most rows are of other units.
fn at_odds(cells: &[u64], k: usize, j: usize) -> bool
    requires schedule_width_in_bounds { k * schedule_width + schedule_width ≤ length cells.now }
    requires schedule_width_in_bounds_2 { j * schedule_width + schedule_width ≤ length cells.now }
    ensures { result ≡ schedule_odds (schedule_at cells.now k) (schedule_at cells.now j) }
{
    if cell(cells, k, UNIT) != cell(cells, j, UNIT) {
        return false;
    }
    if cell(cells, k, SCHEDULE) != cell(cells, j, SCHEDULE) {
        return both_market(cells, k, j);
    }
    if cell(cells, k, HOUR) == cell(cells, j, HOUR) {
        return true;
    }
    unlike(cells, k, j)
}

fn both_market(cells: &[u64], k: usize, j: usize) -> bool
    requires schedule_width_in_bounds { k * schedule_width + schedule_width ≤ length cells.now }
    requires schedule_width_in_bounds_2 { j * schedule_width + schedule_width ≤ length cells.now }
    ensures { result ≡ both_market (schedule_at cells.now k) (schedule_at cells.now j) }
{
    if cell(cells, k, KIND) != M {
        return false;
    }
    cell(cells, j, KIND) == M
}

// Whether rows of one schedule differ in what they are to share.
fn unlike(cells: &[u64], k: usize, j: usize) -> bool
    requires schedule_width_in_bounds { k * schedule_width + schedule_width ≤ length cells.now }
    requires schedule_width_in_bounds_2 { j * schedule_width + schedule_width ≤ length cells.now }
    ensures { result ≡ not (alike (schedule_at cells.now k) (schedule_at cells.now j)) }
{
    if cell(cells, k, KIND) != cell(cells, j, KIND) {
        return true;
    }
    if cell(cells, k, STARTUP) != cell(cells, j, STARTUP) {
        return true;
    }
    cell(cells, k, MINRUN) != cell(cells, j, MINRUN)
}
