// The test of one supplier fed one amount a call, in cells that a host program keeps between calls.
// Assumes nothing: of the cells, the place, the need, the amount and what is left.
ghost use Rattle.std.specs.Prelude.{◌≡◌};
ghost use Rattle.pivotal.specs.Fed.{begun, fed};
ghost use Rattle.capping.specs.Fed.{fed_cells, fed_in, FedTold};

use crate::calls::told_by_test;
use pivotal::{FedTest, Largest};

// How many cells a test has: a host in C keeps numbers.
const CELLS: usize = 6;

// Begins the test of the supplier at `place`.
#[unsafe(no_mangle)]
pub extern "C" fn capping_fed_begin(cells: &mut [u64; CELLS], place: u64, need: u64)
    ensures { cells.new ≡ fed_cells (begun place need) }
{
    lay_test(FedTest::begin(place, need), cells);
}

// Gives the test one amount more.
#[unsafe(no_mangle)]
pub extern "C" fn capping_fed_feed(cells: &mut [u64; CELLS], amount: u64)
    ensures { cells.new ≡ fed_cells (fed (fed_in cells.old) amount) }
{
    let test = test_in(cells);
    lay_test(test.feed(amount), cells);
}

// Asks the test: 0 for P and 1 for F, with what is left, or 11.
#[unsafe(no_mangle)]
pub extern "C" fn capping_fed_ask(cells: &[u64; CELLS], left: &mut u64) -> u64
    ensures { FedTold cells.now left.old left.new result }
{
    let test = test_in(cells);
    told_by_test(test.ask(), left)
}

// The test that cells mean.
fn test_in(cells: &[u64; CELLS]) -> FedTest
    ensures { result ≡ fed_in cells.now }
{
    FedTest {
        place: cells[0],
        need: cells[1],
        count: cells[2],
        total: cells[3],
        largest: Largest {
            first: cells[4],
            second: cells[5],
        },
    }
}

// Lays the test down in its cells.
fn lay_test(test: FedTest, cells: &mut [u64; CELLS])
    ensures { cells.new ≡ fed_cells test }
{
    let largest = test.largest;
    *cells = [
        test.place,
        test.need,
        test.count,
        test.total,
        largest.first,
        largest.second,
    ];
}
