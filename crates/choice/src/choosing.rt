// The schedule chosen for a unit, by its rows among all.
ghost use Rattle.std.specs.Prelude.{◌≡◌, ◌≤◌, ◌<◌};
ghost use Rattle.hours.specs.Hours.{last_hour};
ghost use Rattle.links.specs.promises.Links.{RowsLinked};
ghost use Rattle.cells.specs.promises.Views.{schedule_at};
ghost use Rattle.schedules.specs.Schedules.{own};
ghost use Rattle.choice.specs.promises.Ranges.{ScheduleRowAt, ScheduleCells};
ghost use Rattle.choice.specs.promises.Steps.{own_offers};
ghost use Rattle.choice.specs.Schedules.{schedules, has_any};
ghost use Rattle.choice.specs.Choosing.{shown as choosing_shown, choice};
ghost use Rattle.tables.specs.promises.FlatRows.{schedule_rows};

use crate::choices::{Choice, kept};
use crate::costs::cost;
use crate::kinds::{Kinds, admits, eligible_kinds};
use crate::rows::kind;
use cells::schedule::{HOUR, SCHEDULE, UNIT, cell};
use links::{ROWS, link_at, unit_key};
use tables::Kind;

// The schedule chosen for a unit, of the first `n` rows; nothing where none is eligible.
pub fn choose(
    cells: &[u64],
    n: usize,
    links: &[u16],
    unit: u64,
    hour: u64,
    exposed: bool,
    day: Option<Kind>,
) -> Option<Choice>
    requires schedule_cells { ScheduleCells n cells.now }
    requires rows_linked { RowsLinked cells.now n links.now }
    ensures { result ≡ choice day exposed hour (own unit (schedule_rows n cells.now)) }
{
    let kinds = eligible_kinds(
        day,
        exposed,
        has_any(cells, n, links, unit, hour, Kinds::OnlyM),
    );
    let mut best = None;
    let mut left = link_at(links, ROWS + unit_key(unit));
    while 0 < left {
        let k = left - 1;
        if offers(cells, k, unit, hour, kinds) {
            best = kept(best, shown(cells, n, links, k, hour, day));
        }
        left = link_at(links, k);
    }
    best
}

// Whether the unit has a schedule of these kinds.
pub fn has_any(cells: &[u64], n: usize, links: &[u16], unit: u64, hour: u64, kinds: Kinds) -> bool
    requires schedule_cells { ScheduleCells n cells.now }
    requires rows_linked { RowsLinked cells.now n links.now }
    ensures { result ≡ has_any kinds (schedules hour (own unit (schedule_rows n cells.now))) }
{
    let mut left = link_at(links, ROWS + unit_key(unit));
    while 0 < left {
        let k = left - 1;
        if offers(cells, k, unit, hour, kinds) {
            return true;
        }
        left = link_at(links, k);
    }
    false
}

// Whether the row at `i` is the unit's, for the hour, and of these kinds.
fn offers(cells: &[u64], i: usize, unit: u64, hour: u64, kinds: Kinds) -> bool
    requires { ScheduleRowAt cells.now i }
    ensures { result ≡ own_offers unit hour kinds (schedule_at cells.now i) }
{
    if cell(cells, i, UNIT) != unit {
        return false;
    }
    if cell(cells, i, HOUR) != hour {
        return false;
    }
    admits(kinds, kind(cells, i))
}

// The schedule whose row for the hour stands at `i`, as an answer shows it.
fn shown(cells: &[u64], n: usize, links: &[u16], i: usize, hour: u64, day: Option<Kind>) -> Choice
    requires schedule_cells { ScheduleCells n cells.now }
    requires rows_linked { RowsLinked cells.now n links.now }
    requires i_lt_n { i < n }
    requires hour_le_last_hour { hour ≤ last_hour }
    ensures { result ≡ choosing_shown day hour (own (schedule_at cells.now i).unit (schedule_rows n cells.now)) (schedule_at cells.now i) }
{
    Choice {
        schedule: cell(cells, i, SCHEDULE),
        kind: kind(cells, i),
        cost: cost(cells, n, links, i, hour, day.is_some()),
    }
}
