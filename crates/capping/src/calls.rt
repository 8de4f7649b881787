// What a call answers, as host programs are told it: number, file and place in a report of three cells,
// and what is kept of a day in its cells. Assumes nothing.
ghost use Rattle.std.specs.Prelude.{◌≡◌, eqb};
ghost use Rattle.base.specs.promises.Counting.{one};
ghost use Rattle.engine.specs.View.{view_of};
ghost use Rattle.pivotal.specs.Test.{F, finding, verdict_letter, test_outcome};
ghost use Rattle.tables.specs.Refusals.{count_of, told_by};
ghost use Rattle.capping.specs.Exports.{reported, cells_after, test_number, test_left};

use crate::days::{CELLS, lay_down};
use engine::Day;
use pivotal::{Finding, Tested};
use tables::Refusal;

// What the test answers by numbers, as C has them.
const PASSED: u64 = 0;

const FAILED: u64 = 1;

const TEST_REFUSED: u64 = 11;

// Number, file and place of what a call answered; three zeros where nothing is refused.
pub(crate) fn told_by<T: Drop>(answer: Result<T, Refusal>) -> Refusal
    ensures { result ≡ told_by answer }
{
    match answer {
        Ok(_) => Refusal::bare(0),
        Err(refusal) => refusal,
    }
}

// How many bytes a call wrote, none where it is refused.
pub(crate) fn count_of(answer: Result<usize, Refusal>) -> u64
    ensures { result ≡ count_of answer }
{
    match answer {
        Ok(count) => count as u64,
        Err(_) => 0,
    }
}

// What the test answered: 0 for P and 1 for F, with what is left stored, or 11.
pub(crate) fn told_by_test(answer: Option<Tested>, left: &mut u64) -> u64
    ensures value { result ≡ test_number (test_outcome answer) }
    ensures left_after { left.new ≡ test_left (test_outcome answer) left.old }
{
    match answer {
        Some(tested) => {
            *left = tested.left;
            number_of(tested.found)
        }
        None => TEST_REFUSED,
    }
}

fn number_of(found: Finding) -> u64
    ensures { result ≡ one (eqb (verdict_letter (finding found)) (verdict_letter F)) }
{
    match found {
        Finding::Passes => PASSED,
        Finding::Fails => FAILED,
    }
}

// Stores number, file and place.
pub(crate) fn report_on(told: Refusal, report: &mut [u64; 3])
    ensures { report.new ≡ reported told }
{
    *report = [told.number, told.file, told.place];
}

// Lays down the day after an accepted call; a refused one leaves every cell as it was.
pub(crate) fn keep(told: Refusal, after: Day, cells: &mut [u64; CELLS])
    ensures { cells.new ≡ cells_after cells.old (view_of after) told }
{
    if told.number == 0 {
        lay_down(after, cells);
    }
}
