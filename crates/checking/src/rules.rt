// The rules that schedule rows keep beside a market: refusals 7, 8 and 9, and what comes between: those of
// curves and of parents.
// Assumes rows that refusals 1 to 6 have passed.
ghost use Rattle.std.specs.Prelude.{◌≡◌, ◌∷◌, ◌*◌, ◌≤◌, length};
ghost use Rattle.base.specs.Search.{first_of};
ghost use Rattle.tables.specs.promises.FlatRows.{schedule_rows};
ghost use Rattle.cells.specs.promises.Views.{schedule_width};
ghost use Rattle.links.specs.promises.Links.{RowsLinked};
ghost use Rattle.schedules.specs.promises.Ranges.{Checked};
ghost use Rattle.checking.specs.promises.Alone.{rows_unless};
ghost use Rattle.checking.specs.Files.{units_refusals};
ghost use Rattle.checking.specs.promises.Rules.{refusal_in};
ghost use Rattle.checking.specs.promises.Curves.{RowsHeld, PricedHeld};

use crate::answers::answer;
use crate::curves_file::check_curves;
use crate::refusals::{LACKING, NOT_IN_SUPPLY, UNSCHEDULED};
use schedules::{lacking, not_in_supply, unscheduled};
use tables::Refusal;

// Holds n rows to the rules, in the order of their numbers. Curves, and what reading parents answered,
// have their turns between 7 and 8; the rows are left at the prices of their curves.
pub fn hold(
    hour: u64,
    parents: Result<usize, Refusal>,
    curves: &[u8],
    cells: &mut [u64],
    n: usize,
    links: &[u16],
    units: &[u64],
) -> Result<usize, Refusal>
    requires schedule_width_in_bounds { n * schedule_width ≤ length cells.old }
    requires rows_linked { RowsLinked cells.old n links.now }
    requires checked { Checked hour (schedule_rows n cells.old) }
    ensures { RowsHeld (refusal_in parents) hour units.now curves.now n cells.old cells.new result }
{
    let stranger = not_in_supply(cells, n, links, units).map(|record| record as u64);
    answer(NOT_IN_SUPPLY, stranger, n)?;
    hold_priced(hour, parents, curves, cells, n, links, units)
}

// Curves, then parents, then 8 and 9. Curves are checked by two calls, one for each way to go on: a
// function with one call is compiled into its caller, and then the large array of points would lie in the
// frame of every study, with curves or without. The first way has its `match` written out: an edit turns what is
// answered where curves are refused.
fn hold_priced(
    hour: u64,
    parents: Result<usize, Refusal>,
    curves: &[u8],
    cells: &mut [u64],
    n: usize,
    links: &[u16],
    units: &[u64],
) -> Result<usize, Refusal>
    requires schedule_width_in_bounds { n * schedule_width ≤ length cells.old }
    requires rows_linked { RowsLinked cells.old n links.now }
    requires checked { Checked hour (schedule_rows n cells.old) }
    ensures { PricedHeld (refusal_in parents) hour units.now curves.now n cells.old cells.new result }
{
    if curves.len() == 0 {
        return hold_unpriced(hour, parents, cells, n, links, units);
    }
    match parents {
        Err(waiting) => match check_curves(curves, cells, n, units) {
            Err(sooner) => Err(sooner),
            Ok(_) => Err(waiting),
        },
        Ok(_) => {
            check_curves(curves, cells, n, units)?;
            hold_units(hour, cells, n, links, units)
        }
    }
}

// Parents, then 8 and 9, of rows that have no curves.
fn hold_unpriced(
    hour: u64,
    parents: Result<usize, Refusal>,
    cells: &[u64],
    n: usize,
    links: &[u16],
    units: &[u64],
) -> Result<usize, Refusal>
    requires schedule_width_in_bounds { n * schedule_width ≤ length cells.now }
    requires rows_linked { RowsLinked cells.now n links.now }
    requires checked { Checked hour (schedule_rows n cells.now) }
    ensures { result ≡ rows_unless (first_of (refusal_in parents ∷ units_refusals hour units.now (schedule_rows n cells.now))) n }
{
    parents?;
    hold_units(hour, cells, n, links, units)
}

// 8, then 9.
fn hold_units(
    hour: u64,
    cells: &[u64],
    n: usize,
    links: &[u16],
    units: &[u64],
) -> Result<usize, Refusal>
    requires schedule_width_in_bounds { n * schedule_width ≤ length cells.now }
    requires rows_linked { RowsLinked cells.now n links.now }
    requires checked { Checked hour (schedule_rows n cells.now) }
    ensures { result ≡ rows_unless (first_of (units_refusals hour units.now (schedule_rows n cells.now))) n }
{
    let without = unscheduled(cells, n, links, units);
    answer(UNSCHEDULED, without, n)?;
    let short = lacking(cells, n, links, units, hour);
    answer(LACKING, short, n)
}
