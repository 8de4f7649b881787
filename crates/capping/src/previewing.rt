// The preview of one unit on a day that a host program keeps in cells, which are lent for reading alone.
// Assumes nothing: of the cells, the files, the unit, the row and the report.
ghost use Rattle.std.specs.Prelude.{◌≡◌};
ghost use Rattle.checking.specs.Files.{files};
ghost use Rattle.engine.specs.Previewing.{row_shown};
ghost use Rattle.outcome.specs.Preview.{previewed};
ghost use Rattle.capping.specs.Days.{day_in};
ghost use Rattle.capping.specs.Exports.{cells_shown, PreviewTold, ShownRight};

use crate::calls::{report_on, told_by};
use crate::days::{CELLS, day_in};
use cells::answer::WIDTH;
use tables::{AnswerRow, Refusal};

// Shows the row that a study of the day would write for the unit; curves or parents of no bytes are none. Answers 0, or
// the number of the refusal, as in the report; where it is refused the row is left as it was.
#[unsafe(no_mangle)]
pub extern "C" fn capping_preview(
    day: &[u64; CELLS],
    constraint: &[u8],
    supply: &[u8],
    schedules: &[u8],
    curves: &[u8],
    parents: &[u8],
    unit: u64,
    row: &mut [u64; WIDTH],
    report: &mut [u64; 3],
) -> u64
    ensures preview_told { PreviewTold (previewed (day_in day.now) (files constraint.now supply.now schedules.now curves.now parents.now) unit) row.old row.new report.new result }
    ensures shown_right { ShownRight (day_in day.now) (files constraint.now supply.now schedules.now curves.now parents.now) unit row.new result }
{
    let given = day_in(day);
    let previewed = given.preview(constraint, supply, schedules, curves, parents, unit);
    let preview = previewed.answer;
    let told = told_by(preview);
    show(preview, row);
    report_on(told, report);
    told.number
}

// Stores the fields of the row that is shown, if there is one.
fn show(preview: Result<AnswerRow, Refusal>, row: &mut [u64; WIDTH])
    ensures { row.new ≡ cells_shown row.old (row_shown preview) }
{
    match preview {
        Ok(r) => {
            *row = [
                r.unit, r.supplier, r.verdict, r.left, r.schedule, r.kind, r.cost,
            ];
        }
        Err(_) => {}
    }
}
