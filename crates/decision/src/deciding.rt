// The rows of the answer: first every unit is tested, then a schedule is chosen for each.
ghost use Rattle.std.specs.Prelude.{◌≡◌, ◌++◌, ◌*◌, ◌≤◌, length, take, drop};
ghost use Rattle.tables.specs.promises.FlatRows.{supply_rows, schedule_rows};
ghost use Rattle.links.specs.promises.Links.{RowsLinked};
ghost use Rattle.supply.specs.Supply.{most_units};
ghost use Rattle.schedules.specs.Schedules.{own};
ghost use Rattle.choice.specs.promises.Ranges.{ScheduleCells};
ghost use Rattle.cells.specs.promises.Views.{answer_width};
ghost use Rattle.outcome.specs.Day.{most_running};
ghost use Rattle.running.specs.View.{units_of};
ghost use Rattle.decision.specs.promises.Choosing.{row_from, answer_cells, RowChosen, ChoosesRows};
ghost use Rattle.decision.specs.promises.Deciding.{DecidesRows};
ghost use Rattle.decision.specs.promises.Standing.{MarketCells};
ghost use Rattle.decision.specs.promises.Units.{UnitsOf};

use crate::choosing::{choose_for, lacks_cost};
use crate::testing::{Tests, UnitTest, test_units};
use cells::{Sizes, answer};
use choice::{Choice, Schedules};
use running::Units;
use tables::{ConstraintRow, Kind, letter_of};

// A unit that runs on cost has no C schedule.
#[derive(Clone, Copy)]
pub struct NoCostSchedule {
    pub unit: u64,
}

// Decides the units of supply on a day with these units running, and lays down their rows.
pub fn decide(
    constraint: ConstraintRow,
    sizes: Sizes,
    supply: &[u64],
    units: &[u64],
    schedules: &[u64],
    links: &[u16],
    running: Units,
    rows: &mut [u64],
) -> Result<(), NoCostSchedule>
    requires market_cells { MarketCells constraint sizes.supply supply.now }
    requires units_of { UnitsOf sizes.units (supply_rows sizes.supply supply.now) units.now }
    requires schedule_cells { ScheduleCells sizes.schedules schedules.now }
    requires rows_linked { RowsLinked schedules.now sizes.schedules links.now }
    requires count_le_most_running { running.count ≤ most_running }
    requires answer_width_in_bounds { sizes.units * answer_width ≤ length rows.old }
    ensures { DecidesRows constraint (supply_rows sizes.supply supply.now) (schedule_rows sizes.schedules schedules.now) (units_of running) sizes.units rows.new result }
{
    let k = sizes.units;
    let tests = test_units(constraint, supply, sizes.supply, units, k);
    let schedules = Schedules::of(schedules, sizes.schedules, links);
    choose_rows(constraint.hour, &schedules, running, tests, k, rows)
}

// Chooses a schedule for each of the first `k` units that have been tested, and lays down their rows.
fn choose_rows(
    hour: u64,
    schedules: &Schedules<'_>,
    running: Units,
    tests: Tests,
    k: usize,
    rows: &mut [u64],
) -> Result<(), NoCostSchedule>
    requires count_le_most_running { running.count ≤ most_running }
    requires k_le_most_units { k ≤ most_units }
    requires answer_width_in_bounds { k * answer_width ≤ length rows.old }
    ensures { ChoosesRows hour schedules.now (units_of running) (take k tests.tests) k rows.new result }
{
    for i in 0..k {
        let test = tests.tests[i];
        let day = running.day_kind(test.unit);
        if !choose_row(hour, schedules, test, day, &mut rows[i * answer::WIDTH..]) {
            return Err(NoCostSchedule { unit: test.unit });
        }
    }
    Ok(())
}

// Chooses a unit's schedule and lays down its row; not where it runs on cost and has no C schedule.
fn choose_row(
    hour: u64,
    schedules: &Schedules<'_>,
    test: UnitTest,
    day: Option<Kind>,
    row: &mut [u64],
) -> bool
    requires answer_width_in_bounds { answer_width ≤ length row.old }
    ensures { RowChosen hour (own test.unit schedules.now) day test row.old row.new result }
{
    if lacks_cost(schedules, hour, test.unit, day) {
        return false;
    }
    let choice = choose_for(schedules, hour, test, day);
    lay_row(test, choice, row);
    true
}

fn lay_row(test: UnitTest, choice: Choice, row: &mut [u64])
    requires { answer_width ≤ length row.old }
    ensures { row.new ≡ answer_cells (row_from test choice) ++ drop answer_width row.old }
{
    let kind = choice.kind;
    row[answer::UNIT] = test.unit;
    row[answer::SUPPLIER] = test.supplier;
    row[answer::VERDICT] = test.verdict;
    row[answer::LEFT] = test.left;
    row[answer::SCHEDULE] = choice.schedule;
    row[answer::KIND] = letter_of(kind);
    row[answer::COST] = choice.cost;
}
