// Deciding a study: every refusal but 10, and where there is none the rows of the answer, laid down in a
// lent run. Nothing is written to a file, and the day stays as it is. Assumes nothing of the files or
// the day.
ghost use Rattle.std.specs.Prelude.{◌≡◌, true, ◌*◌, ◌≤◌, length, Err};
ghost use Rattle.tables.specs.declared.files.File.TheVariants.{Schedules};
ghost use Rattle.tables.specs.Refusals.{refused, bare_refusal};
ghost use Rattle.tables.specs.promises.FlatRows.{supply_rows, schedule_rows};
ghost use Rattle.cells.specs.promises.Views.{answer_width};
ghost use Rattle.links.specs.promises.Links.{RowsLinked};
ghost use Rattle.supply.specs.Supply.{most_units};
ghost use Rattle.checking.specs.Files.{files};
ghost use Rattle.checking.specs.promises.Rules.{refusal_in};
ghost use Rattle.choice.specs.promises.Ranges.{ScheduleCells};
ghost use Rattle.decision.specs.promises.Standing.{MarketCells};
ghost use Rattle.decision.specs.promises.Units.{UnitsOf};
ghost use Rattle.outcome.specs.Day.{day_formed};
ghost use Rattle.running.specs.promises.Forming.{units_formed};
ghost use Rattle.running.specs.View.{units_of};
ghost use Rattle.engine.specs.View.{view_of};
ghost use Rattle.engine.specs.promises.Deciding.{DecidesStudy, DecidesGroups, DecidesMarket, DecidesFromRows, ShownListed};

use crate::day::Day;
use crate::refusals::{EARLIER_HOUR, ILL_FORMED, NO_COST_SCHEDULE, TOO_MANY_RUNNING};
use cells::Sizes;
use checking::{
    Market, SCHEDULE_CELLS, SUPPLY_CELLS, UNITS_LENGTH, check_market, check_parents,
    check_schedules,
};
use decision::{list_suppliers, name_suppliers};
use tables::{ConstraintRow, File, Refusal};

// The hour of the study, and how many rows were laid down.
#[derive(Clone, Copy)]
pub struct DecidedRows {
    pub hour: u64,
    pub count: usize,
}

impl Day {
    // Decides each unit of the supply file, and lays down its row.
    pub(crate) fn decide(
        self,
        constraint: &[u8],
        supply: &[u8],
        schedules: &[u8],
        curves: &[u8],
        parents: &[u8],
        rows: &mut [u64],
    ) -> Result<DecidedRows, Refusal>
        requires { most_units * answer_width ≤ length rows.old }
        ensures { DecidesStudy self (files constraint.now supply.now schedules.now curves.now parents.now) rows.new result }
    {
        if self.is_formed() {
            self.decide_files(constraint, supply, schedules, curves, parents, rows)
        } else {
            refused_by_state(ILL_FORMED)
        }
    }

    // Constraint and supply first.
    fn decide_files(
        self,
        constraint: &[u8],
        supply: &[u8],
        schedules: &[u8],
        curves: &[u8],
        parents: &[u8],
        rows: &mut [u64],
    ) -> Result<DecidedRows, Refusal>
        requires self_value { day_formed (view_of self) ≡ true }
        requires answer_width_in_bounds { most_units * answer_width ≤ length rows.old }
        ensures { DecidesStudy self (files constraint.now supply.now schedules.now curves.now parents.now) rows.new result }
    {
        let mut supply_cells = [0u64; SUPPLY_CELLS];
        let mut units = [0u64; UNITS_LENGTH];
        let market = check_market(constraint, supply, &mut supply_cells, &mut units)?;
        self.decide_groups(
            market,
            &mut supply_cells,
            &units,
            schedules,
            curves,
            parents,
            rows,
        )
    }

    // Then the market that passed, by the groups of parents where there are any. The answer shows the
    // suppliers of the supply file.
    fn decide_groups(
        self,
        market: Market,
        supply: &mut [u64],
        units: &[u64],
        schedules: &[u8],
        curves: &[u8],
        parents: &[u8],
        rows: &mut [u64],
    ) -> Result<DecidedRows, Refusal>
        requires units_value { units_formed (units_of self.units) ≡ true }
        requires market_cells { MarketCells market.constraint market.rows supply.old }
        requires units_of { UnitsOf market.units (supply_rows market.rows supply.old) units.now }
        requires answer_width_in_bounds { most_units * answer_width ≤ length rows.old }
        ensures { DecidesGroups self market.constraint (supply_rows market.rows supply.old) schedules.now curves.now parents.now rows.new result }
    {
        let mut suppliers = [0u64; UNITS_LENGTH];
        let count = list_shown(parents, market, supply, units, &mut suppliers);
        let reading = check_parents(parents, supply, market.rows);
        let deciding = self.decide_market(market, reading, supply, units, schedules, curves, rows);
        name_suppliers(&suppliers, count, rows);
        deciding
    }

    // Then schedules and curves, for the hour and the units of a market that passed. What reading parents
    // answered waits for its turn.
    fn decide_market(
        self,
        market: Market,
        parents: Result<usize, Refusal>,
        supply: &[u64],
        units: &[u64],
        schedules: &[u8],
        curves: &[u8],
        rows: &mut [u64],
    ) -> Result<DecidedRows, Refusal>
        requires units_value { units_formed (units_of self.units) ≡ true }
        requires market_cells { MarketCells market.constraint market.rows supply.now }
        requires units_of { UnitsOf market.units (supply_rows market.rows supply.now) units.now }
        requires answer_width_in_bounds { most_units * answer_width ≤ length rows.old }
        ensures { DecidesMarket self market.constraint (supply_rows market.rows supply.now) (refusal_in parents) schedules.now curves.now rows.new result }
    {
        let mut cells = [0u64; SCHEDULE_CELLS];
        let mut links = [0u16; links::LENGTH];
        let count = check_schedules(
            market, parents, schedules, curves, units, &mut cells, &mut links,
        )?;
        let sizes = Sizes {
            supply: market.rows,
            schedules: count,
            units: market.units,
        };
        let constraint = market.constraint;
        self.decide_rows(constraint, sizes, supply, units, &cells, &links, rows)
    }

    // Then the rows: 20, 21 and 22.
    fn decide_rows(
        self,
        constraint: ConstraintRow,
        sizes: Sizes,
        supply: &[u64],
        units: &[u64],
        schedules: &[u64],
        links: &[u16],
        rows: &mut [u64],
    ) -> Result<DecidedRows, Refusal>
        requires units_value { units_formed (units_of self.units) ≡ true }
        requires market_cells { MarketCells constraint sizes.supply supply.now }
        requires units_of { UnitsOf sizes.units (supply_rows sizes.supply supply.now) units.now }
        requires schedule_cells { ScheduleCells sizes.schedules schedules.now }
        requires rows_linked { RowsLinked schedules.now sizes.schedules links.now }
        requires answer_width_in_bounds { most_units * answer_width ≤ length rows.old }
        ensures { DecidesFromRows self constraint (supply_rows sizes.supply supply.now) (schedule_rows sizes.schedules schedules.now) rows.new result }
    {
        if self.is_earlier(constraint.hour) {
            return refused_by_state(EARLIER_HOUR);
        }
        let running = self.units;
        let decided = decision::decide(
            constraint, sizes, supply, units, schedules, links, running, rows,
        );
        match decided {
            Err(lacks) => refused_at(lacks.unit),
            Ok(_) => {
                if running.would_run(&units[..sizes.units]) > Day::UNITS {
                    refused_by_state(TOO_MANY_RUNNING)
                } else {
                    Ok(DecidedRows {
                        hour: constraint.hour,
                        count: sizes.units,
                    })
                }
            }
        }
    }
}

// Lists the supplier of each unit, and answers how many are listed; none where there are no parents,
// since rows show the suppliers of the supply file then.
fn list_shown(
    parents: &[u8],
    market: Market,
    supply: &[u64],
    units: &[u64],
    suppliers: &mut [u64],
) -> usize
    requires market_cells { MarketCells market.constraint market.rows supply.now }
    requires units_of { UnitsOf market.units (supply_rows market.rows supply.now) units.now }
    requires most_units_in_bounds { most_units ≤ length suppliers.old }
    ensures { ShownListed parents.now market.units (supply_rows market.rows supply.now) suppliers.new result }
{
    if parents.len() == 0 {
        return 0;
    }
    let count = market.units;
    list_suppliers(supply, market.rows, units, count, suppliers);
    count
}

// 21, at a unit of the schedules.
fn refused_at(unit: u64) -> Result<DecidedRows, Refusal>
    ensures { result ≡ Err (refused 21 Schedules unit) }
{
    Err(Refusal::of(NO_COST_SCHEDULE, File::Schedules, unit))
}

// A refusal that names no file.
fn refused_by_state(number: u64) -> Result<DecidedRows, Refusal>
    ensures { result ≡ Err (bare_refusal number) }
{
    Err(Refusal::bare(number))
}
