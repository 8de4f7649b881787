// The preview of one unit: what a study takes but the buffer, and the unit's number. Deciding is the
// study's own, of all units, since 21 and 22 go by all of them; then the unit's row is taken out. Nothing is
// written, and the day comes back as it was. Assumes nothing of the files, the day or the number.
ghost use Rattle.std.specs.Prelude.{◌≡◌, ◌*◌, ◌≤◌, length};
ghost use Rattle.cells.specs.promises.Views.{answer_rows, answer_width};
ghost use Rattle.checking.specs.Files.{files};
ghost use Rattle.outcome.specs.Preview.{row_for};
ghost use Rattle.engine.specs.Previewing.{Previews, PreviewsRight};
ghost use Rattle.engine.specs.promises.Answering.{preview_as, looked_at};

use crate::day::Day;
use crate::refusals::NOT_SUPPLIED;
use cells::answer::{UNIT, cell, row_at};
use tables::{AnswerRow, Refusal};

// The day, as it was given, with the answer: the unit's row, or why it is refused.
#[derive(Clone, Copy)]
pub struct Previewed {
    pub day: Day,
    pub answer: Result<AnswerRow, Refusal>,
}

impl Day {
    // Shows the row that a study of the files would write for the unit. Curves or parents of no bytes are
    // none.
    pub fn preview(
        self,
        constraint: &[u8],
        supply: &[u8],
        schedules: &[u8],
        curves: &[u8],
        parents: &[u8],
        unit: u64,
    ) -> Previewed
        ensures previews { Previews self (files constraint.now supply.now schedules.now curves.now parents.now) unit result }
        ensures previews_right { PreviewsRight self (files constraint.now supply.now schedules.now curves.now parents.now) unit result }
    {
        let mut rows = [0u64; answer::CELLS];
        let deciding = self.decide(constraint, supply, schedules, curves, parents, &mut rows);
        match deciding {
            Err(refusal) => self.looked_at(Err(refusal)),
            Ok(decided) => self.looked_at(row_for(unit, &rows, decided.count)),
        }
    }

    // The very day, with the answer.
    fn looked_at(self, answer: Result<AnswerRow, Refusal>) -> Previewed
        ensures { result ≡ looked_at self answer }
    {
        Previewed { day: self, answer }
    }
}

// The unit's row among the first `count`, or 31.
fn row_for(unit: u64, rows: &[u64], count: usize) -> Result<AnswerRow, Refusal>
    requires { count * answer_width ≤ length rows.now }
    ensures { result ≡ preview_as (row_for unit (answer_rows count rows.now)) }
{
    for i in 0..count {
        if cell(rows, i, UNIT) == unit {
            return Ok(row_at(rows, i));
        }
    }
    Err(Refusal::bare(NOT_SUPPLIED))
}
