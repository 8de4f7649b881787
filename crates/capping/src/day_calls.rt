// The calls on a day that a host program keeps in cells. Assumes nothing: of the cells, the files, the
// buffer, the unit and the report.
ghost use Rattle.std.specs.Prelude.{◌≡◌};
ghost use Rattle.checking.specs.Files.{files};
ghost use Rattle.outcome.specs.Day.{fresh_day};
ghost use Rattle.outcome.specs.Study.{studied};
ghost use Rattle.capping.specs.Days.{day_in, day_cells};
ghost use Rattle.capping.specs.Exports.{DayStudied, DayReleased, ToldRight};

use crate::calls::{count_of, keep, report_on, told_by};
use crate::days::{CELLS, day_in, lay_down};
use engine::Day;

// A fresh day.
#[unsafe(no_mangle)]
pub extern "C" fn capping_day_fresh(day: &mut [u64; CELLS])
    ensures day_after { day.new ≡ day_cells fresh_day }
    ensures day_after_2 { day_in day.new ≡ fresh_day }
{
    lay_down(Day::fresh(), day);
}

// Studies the day; curves or parents of no bytes are none. Answers how many bytes were written, 0 where it is
// refused; the report is number, file and place, all 0 where it is accepted.
#[unsafe(no_mangle)]
pub extern "C" fn capping_day_study(
    day: &mut [u64; CELLS],
    constraint: &[u8],
    supply: &[u8],
    schedules: &[u8],
    curves: &[u8],
    parents: &[u8],
    answer: &mut [u8],
    report: &mut [u64; 3],
) -> u64
    ensures day_studied { DayStudied (studied (day_in day.old) (files constraint.now supply.now schedules.now curves.now parents.now) answer.old) day.old day.new answer.new report.new result }
    ensures told_right { ToldRight (day_in day.old) (files constraint.now supply.now schedules.now curves.now parents.now) answer.new result }
{
    let given = day_in(day);
    let studied = given.study(constraint, supply, schedules, curves, parents, answer);
    let study = studied.answer;
    let after = studied.day;
    let told = told_by(study);
    keep(told, after, day);
    report_on(told, report);
    count_of(study)
}

// Releases a unit of the day: 0, or the number of the refusal, as in the report.
#[unsafe(no_mangle)]
pub extern "C" fn capping_day_release(
    day: &mut [u64; CELLS],
    unit: u64,
    report: &mut [u64; 3],
) -> u64
    ensures { DayReleased day.old day.new unit report.new result }
{
    let given = day_in(day);
    let released = given.release(unit);
    let release = released.answer;
    let after = released.day;
    let told = told_by(release);
    keep(told, after, day);
    report_on(told, report);
    told.number
}
