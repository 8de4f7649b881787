// Refusal 9: the lowest unit with a schedule that lacks an hour of its run. The rows of a unit, and
// of a schedule, are found along links, and a schedule's run is followed from row to row: it has a
// row at the study hour, and one behind each of its rows that is in the run and not its last.
// Assumes rows that refusals 1 to 6 have passed.
ghost use Rattle.std.specs.Prelude.{◌≡◌, ◌+◌, ◌*◌, ◌≤◌, ◌<◌, length};
ghost use Rattle.hours.specs.Hours.{last_hour};
ghost use Rattle.tables.specs.promises.Ranges.{PermittedSchedule};
ghost use Rattle.tables.specs.promises.FlatRows.{schedule_rows};
ghost use Rattle.cells.specs.promises.Views.{schedule_at, schedule_width};
ghost use Rattle.links.specs.promises.Links.{RowsLinked, Linked, schedule_keys, schedule_key};
ghost use Rattle.schedules.specs.promises.Ranges.{Checked};
ghost use Rattle.schedules.specs.promises.Steps.{is_at, has_hour, lacks as runs_lacks, keeps_on as runs_runs, stops as runs_stops};
ghost use Rattle.schedules.specs.Schedules.{own};
ghost use Rattle.schedules.specs.Runs.{lacking as schedules_lacking};

use cells::schedule::{HOUR, MINRUN, SCHEDULE, UNIT, cell};
use hours::run_end;
use links::{ROWS, UNIT_LINKS, link_at, schedule_key, unit_key};

// The lowest of the units with a schedule that lacks an hour, if there is one, where the units rise.
pub fn lacking(cells: &[u64], n: usize, links: &[u16], units: &[u64], hour: u64) -> Option<u64>
    requires schedule_width_in_bounds { n * schedule_width ≤ length cells.now }
    requires rows_linked { RowsLinked cells.now n links.now }
    requires checked { Checked hour (schedule_rows n cells.now) }
    ensures { result ≡ schedules_lacking hour units.now (schedule_rows n cells.now) }
{
    units
        .iter()
        .copied()
        .find(|&unit| lacks(cells, n, links, unit, hour))
}

// Whether a schedule of the unit lacks an hour.
fn lacks(cells: &[u64], n: usize, links: &[u16], unit: u64, hour: u64) -> bool
    requires schedule_width_in_bounds { n * schedule_width ≤ length cells.now }
    requires rows_linked { RowsLinked cells.now n links.now }
    requires checked { Checked hour (schedule_rows n cells.now) }
    ensures { result ≡ runs_lacks hour (own unit (schedule_rows n cells.now)) }
{
    let mut left = link_at(links, ROWS + unit_key(unit));
    while 0 < left {
        let k = left - 1;
        if stops(cells, n, links, k, unit, hour) {
            return true;
        }
        left = link_at(links, k);
    }
    false
}

// Whether row `k` is the unit's, and its schedule's run stops at it or never starts.
fn stops(cells: &[u64], n: usize, links: &[u16], k: usize, unit: u64, hour: u64) -> bool
    requires schedule_width_in_bounds { n * schedule_width ≤ length cells.now }
    requires rows_linked { RowsLinked cells.now n links.now }
    requires k_lt_n { k < n }
    requires hour_le_last_hour { hour ≤ last_hour }
    requires permitted_schedule { PermittedSchedule (schedule_at cells.now k) }
    ensures { result ≡ runs_stops unit hour (schedule_rows n cells.now) (schedule_at cells.now k) }
{
    if cell(cells, k, UNIT) != unit {
        return false;
    }
    !runs(cells, n, &links[UNIT_LINKS..], k, hour)
}

// Whether the schedule of row `k` starts at the study hour, and goes on behind row `k` if it has to.
fn runs(cells: &[u64], n: usize, by_schedule: &[u16], k: usize, hour: u64) -> bool
    requires schedule_width_in_bounds { n * schedule_width ≤ length cells.now }
    requires linked { Linked (schedule_key cells.now) schedule_keys n by_schedule.now }
    requires k_lt_n { k < n }
    requires hour_le_last_hour { hour ≤ last_hour }
    requires permitted_schedule { PermittedSchedule (schedule_at cells.now k) }
    ensures { result ≡ runs_runs hour (schedule_rows n cells.now) (schedule_at cells.now k) }
{
    if !has_hour(cells, n, by_schedule, k, hour) {
        return false;
    }
    let at = cell(cells, k, HOUR);
    if at < hour {
        return true;
    }
    if run_end(hour, cell(cells, k, MINRUN)) <= at {
        return true;
    }
    has_hour(cells, n, by_schedule, k, at + 1)
}

// Whether the schedule of row `k` has a row for an hour.
fn has_hour(cells: &[u64], n: usize, by_schedule: &[u16], k: usize, hour: u64) -> bool
    requires schedule_width_in_bounds { n * schedule_width ≤ length cells.now }
    requires linked { Linked (schedule_key cells.now) schedule_keys n by_schedule.now }
    requires k_lt_n { k < n }
    ensures { result ≡ has_hour (schedule_at cells.now k) hour (schedule_rows n cells.now) }
{
    let key = schedule_key(cell(cells, k, UNIT), cell(cells, k, SCHEDULE));
    let mut left = link_at(by_schedule, ROWS + key);
    while 0 < left {
        let j = left - 1;
        if is_at(cells, k, j, hour) {
            return true;
        }
        left = link_at(by_schedule, j);
    }
    false
}

// Whether row `j` is of the schedule of row `k`, and for an hour.
fn is_at(cells: &[u64], k: usize, j: usize, hour: u64) -> bool
    requires schedule_width_in_bounds { k * schedule_width + schedule_width ≤ length cells.now }
    requires schedule_width_in_bounds_2 { j * schedule_width + schedule_width ≤ length cells.now }
    ensures { result ≡ is_at (schedule_at cells.now k) hour (schedule_at cells.now j) }
{
    if cell(cells, k, UNIT) != cell(cells, j, UNIT) {
        return false;
    }
    if cell(cells, k, SCHEDULE) != cell(cells, j, SCHEDULE) {
        return false;
    }
    cell(cells, j, HOUR) == hour
}
