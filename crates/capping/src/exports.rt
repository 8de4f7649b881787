// The study and the test for host programs. Assumes nothing: of the files, the buffer, the report,
// the amounts, the place and the need.
ghost use Rattle.std.specs.Prelude.{◌≡◌};
ghost use Rattle.checking.specs.Files.{files};
ghost use Rattle.outcome.specs.Day.{fresh_day};
ghost use Rattle.outcome.specs.Study.{studied};
ghost use Rattle.pivotal.specs.Test.{tested};
ghost use Rattle.capping.specs.Exports.{StudyTold, ToldRight, test_number, test_left};

use crate::calls::{count_of, report_on, told_by, told_by_test};
use engine::Day;

// Studies a fresh day; curves or parents of no bytes are none. Answers how many bytes were written, 0 where it is
// refused; the report is number, file and place, all 0 where it is accepted.
#[unsafe(no_mangle)]
pub extern "C" fn capping_study(
    constraint: &[u8],
    supply: &[u8],
    schedules: &[u8],
    curves: &[u8],
    parents: &[u8],
    answer: &mut [u8],
    report: &mut [u64; 3],
) -> u64
    ensures study_told { StudyTold (studied fresh_day (files constraint.now supply.now schedules.now curves.now parents.now) answer.old) answer.new report.new result }
    ensures told_right { ToldRight fresh_day (files constraint.now supply.now schedules.now curves.now parents.now) answer.new result }
{
    let day = Day::fresh();
    let studied = day.study(constraint, supply, schedules, curves, parents, answer);
    let study = studied.answer;
    report_on(told_by(study), report);
    count_of(study)
}

// Tests the supplier at `place`: 0 for P and 1 for F, with what is left, or 11.
#[unsafe(no_mangle)]
pub extern "C" fn capping_test(amounts: &[u64], place: u64, need: u64, left: &mut u64) -> u64
    ensures value { result ≡ test_number (tested amounts.now place need) }
    ensures left_after { left.new ≡ test_left (tested amounts.now place need) left.old }
{
    told_by_test(pivotal::test(amounts, place as usize, need), left)
}
