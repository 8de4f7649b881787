// What a schedule costs, in tenths of a cent. A schedule is given by the place of its row for the study
// hour among all rows.
ghost use Rattle.std.specs.Prelude.{◌≡◌, ◌≤◌, ◌<◌};
ghost use Rattle.hours.specs.Hours.{last_hour};
ghost use Rattle.links.specs.promises.Links.{RowsLinked, Linked, schedule_keys, schedule_key};
ghost use Rattle.cells.specs.promises.Views.{schedule_at};
ghost use Rattle.schedules.specs.Schedules.{own};
ghost use Rattle.choice.specs.promises.Ranges.{ScheduleRowAt, ScheduleCells};
ghost use Rattle.choice.specs.promises.Steps.{own_share};
ghost use Rattle.choice.specs.Cost.{price as cost_price, hour_cost, run_cost, cost as cost_cost};
ghost use Rattle.tables.specs.promises.FlatRows.{schedule_rows};

use crate::prices::offer_price;
use crate::rows::kind;
use cells::schedule::{ECOMIN, HOUR, MINRUN, NOLOAD, PRICE, SCHEDULE, STARTUP, UNIT, cell};
use hours::in_run;
use links::{ROWS, UNIT_LINKS, link_at, schedule_key};

// What the schedule at `s` costs a unit that runs already, or one that starts.
pub fn cost(cells: &[u64], n: usize, links: &[u16], s: usize, hour: u64, running: bool) -> u64
    requires schedule_cells { ScheduleCells n cells.now }
    requires rows_linked { RowsLinked cells.now n links.now }
    requires s_lt_n { s < n }
    requires hour_le_last_hour { hour ≤ last_hour }
    ensures { result ≡ cost_cost running hour (own (schedule_at cells.now s).unit (schedule_rows n cells.now)) (schedule_at cells.now s) }
{
    if running {
        return hour_cost(cells, s);
    }
    run_cost(cells, n, &links[UNIT_LINKS..], s, hour) + 10 * cell(cells, s, STARTUP)
}

// The costs of the hours of the run of the schedule at `s`, added up.
fn run_cost(cells: &[u64], n: usize, by_schedule: &[u16], s: usize, hour: u64) -> u64
    requires schedule_cells { ScheduleCells n cells.now }
    requires linked { Linked (schedule_key cells.now) schedule_keys n by_schedule.now }
    requires s_lt_n { s < n }
    requires hour_le_last_hour { hour ≤ last_hour }
    ensures { result ≡ run_cost hour (schedule_at cells.now s) (own (schedule_at cells.now s).unit (schedule_rows n cells.now)) }
{
    let key = schedule_key(cell(cells, s, UNIT), cell(cells, s, SCHEDULE));
    let mut sum = 0;
    let mut left = link_at(by_schedule, ROWS + key);
    while 0 < left {
        let k = left - 1;
        sum += share(cells, s, k, hour);
        left = link_at(by_schedule, k);
    }
    sum
}

// What the row at `i` adds to the cost of the run of the schedule at `s`.
fn share(cells: &[u64], s: usize, i: usize, hour: u64) -> u64
    requires schedule_row_at { ScheduleRowAt cells.now s }
    requires schedule_row_at_2 { ScheduleRowAt cells.now i }
    requires hour_le_last_hour { hour ≤ last_hour }
    ensures { result ≡ own_share (schedule_at cells.now s).unit hour (schedule_at cells.now s) (schedule_at cells.now i) }
{
    if cell(cells, i, UNIT) != cell(cells, s, UNIT) {
        return 0;
    }
    if cell(cells, i, SCHEDULE) != cell(cells, s, SCHEDULE) {
        return 0;
    }
    if in_run(hour, cell(cells, s, MINRUN), cell(cells, i, HOUR)) {
        return hour_cost(cells, i);
    }
    0
}

// What the hour of the row at `i` costs.
fn hour_cost(cells: &[u64], i: usize) -> u64
    requires { ScheduleRowAt cells.now i }
    ensures { result ≡ hour_cost (schedule_at cells.now i) }
{
    cell(cells, i, ECOMIN) * price(cells, i) + 10 * cell(cells, i, NOLOAD)
}

// The price of the hour of the row at `i`.
fn price(cells: &[u64], i: usize) -> u64
    requires { ScheduleRowAt cells.now i }
    ensures { result ≡ cost_price (schedule_at cells.now i) }
{
    offer_price(kind(cells, i), cell(cells, i, PRICE))
}
