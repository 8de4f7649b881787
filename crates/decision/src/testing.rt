// The test of every unit: its supplier, the verdict and what is left, and whether the unit is exposed.
ghost use Rattle.std.specs.Prelude.{◌≡◌, true, map, take};
ghost use Rattle.base.specs.Search.{any};
ghost use Rattle.outcome.specs.Decision.{of_unit};
ghost use Rattle.decision.specs.promises.Standing.{Stands, MarketCells};
ghost use Rattle.decision.specs.promises.Testing.{unit_test, InMarket};
ghost use Rattle.decision.specs.promises.Units.{UnitFound, UnitsOf};
ghost use Rattle.tables.specs.promises.FlatRows.{supply_rows};

use crate::standing::{Cleared, stand};
use crate::units::{has_wanted, row_of};
use market::{need_of, party};
use numbers::place_of;
use offers::{is_eligible, is_relevant, supplier};
use pivotal::{Finding, test};
use tables::ConstraintRow;

// The most units of a supply file.
const UNITS: usize = 64;

// Room for the most parties and one more, and for the amount of each.
const PARTIES: usize = 33;

const AMOUNTS: usize = 32;

// The letters of the verdicts: the test can't be performed, passed, failed. Letters and no enum, since the
// cells of an answer's row hold them.
const U: u64 = 0x55;

const P: u64 = 0x50;

const F: u64 = 0x46;

#[derive(Clone, Copy)]
pub struct UnitTest {
    pub unit: u64,
    pub supplier: u64,
    pub verdict: u64,
    pub left: u64,
    pub exposed: bool,
}

// The tests of the units, in the order of the units, from the start.
#[derive(Clone, Copy)]
pub struct Tests {
    pub tests: [UnitTest; UNITS],
}

// Tests the first `k` units.
pub fn test_units(
    constraint: ConstraintRow,
    cells: &[u64],
    n: usize,
    units: &[u64],
    k: usize,
) -> Tests
    requires market_cells { MarketCells constraint n cells.now }
    requires units_of { UnitsOf k (supply_rows n cells.now) units.now }
    ensures { take k result.tests ≡ map (unit_test constraint (supply_rows n cells.now)) (take k units.now) }
{
    let mut parties = [0u64; PARTIES];
    let mut amounts = [0u64; AMOUNTS];
    let standing = stand(constraint, cells, n, &mut parties, &mut amounts);
    test_each(constraint, cells, n, standing, &parties, &amounts, units, k)
}

// Tests the first `k` units, one after the other, in a market that stands as found.
fn test_each(
    constraint: ConstraintRow,
    cells: &[u64],
    n: usize,
    standing: Option<Cleared>,
    parties: &[u64],
    amounts: &[u64],
    units: &[u64],
    k: usize,
) -> Tests
    requires market_cells { MarketCells constraint n cells.now }
    requires stands { Stands constraint (supply_rows n cells.now) parties.now amounts.now standing }
    requires units_of { UnitsOf k (supply_rows n cells.now) units.now }
    ensures { take k result.tests ≡ map (unit_test constraint (supply_rows n cells.now)) (take k units.now) }
{
    let untested = UnitTest {
        unit: 0,
        supplier: 0,
        verdict: U,
        left: 0,
        exposed: false,
    };
    let mut tests = [untested; UNITS];
    for i in 0..k {
        let test = test_unit(constraint, cells, n, standing, parties, amounts, units[i]);
        tests[i] = test;
    }
    Tests { tests }
}

// The test of a unit of the supply rows, in a market that stands as found. Where the test can't be
// performed, an eligible row exposes the unit.
fn test_unit(
    constraint: ConstraintRow,
    cells: &[u64],
    n: usize,
    standing: Option<Cleared>,
    parties: &[u64],
    amounts: &[u64],
    unit: u64,
) -> UnitTest
    requires market_cells { MarketCells constraint n cells.now }
    requires stands { Stands constraint (supply_rows n cells.now) parties.now amounts.now standing }
    requires cells_value { any (of_unit unit) (supply_rows n cells.now) ≡ true }
    ensures { result ≡ unit_test constraint (supply_rows n cells.now) unit }
{
    let row = row_of(cells, n, unit);
    match standing {
        None => UnitTest {
            unit,
            supplier: supplier(cells, row),
            verdict: U,
            left: 0,
            exposed: has_wanted(
                cells,
                n,
                unit,
                row,
                |row| is_eligible(cells, row, constraint.cutoff),
            ),
        },
        Some(cleared) => test_in_market(
            constraint,
            cells,
            n,
            cleared.row,
            &parties[0..cleared.parties],
            &amounts[0..cleared.parties],
            unit,
            row,
        ),
    }
}

// The test of a unit in a market that the row at `clearing` clears, where `row` is the first of the
// unit's. Where it fails, a relevant row exposes the unit.
fn test_in_market(
    constraint: ConstraintRow,
    cells: &[u64],
    n: usize,
    clearing: usize,
    parties: &[u64],
    amounts: &[u64],
    unit: u64,
    row: usize,
) -> UnitTest
    requires market_cells { MarketCells constraint n cells.now }
    requires unit_found { UnitFound unit n cells.now row }
    requires in_market { InMarket constraint (supply_rows n cells.now) clearing parties.now amounts.now }
    ensures { result ≡ unit_test constraint (supply_rows n cells.now) unit }
{
    let own = supplier(cells, row);
    // Every party is among the parties.
    let place = place_of(party(cells, row), parties).unwrap_or(0);
    let outcome = test(amounts, place, need_of(constraint.relief));
    match outcome {
        Some(tested) => match tested.found {
            Finding::Fails => {
                let exposed = has_wanted(
                    cells,
                    n,
                    unit,
                    row,
                    |row| is_relevant(cells, row, clearing, constraint.cutoff),
                );
                UnitTest {
                    unit,
                    supplier: own,
                    verdict: F,
                    left: tested.left,
                    exposed,
                }
            }
            Finding::Passes => UnitTest {
                unit,
                supplier: own,
                verdict: P,
                left: tested.left,
                exposed: false,
            },
        },
        // Never so: the amounts of so few parties are within the test's limits.
        None => UnitTest {
            unit,
            supplier: own,
            verdict: U,
            left: 0,
            exposed: false,
        },
    }
}
