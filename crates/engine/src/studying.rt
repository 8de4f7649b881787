// The study: its files, the day by value and a lent buffer. Deciding the units, writing the answer
// and putting the choices into the day are three steps; nothing is written before the last refusal is
// passed. Assumes nothing of the files, the day or the buffer.
ghost use Rattle.std.specs.Prelude.{◌≡◌, true};
ghost use Rattle.cells.specs.promises.Views.{answer_rows};
ghost use Rattle.checking.specs.Files.{files};
ghost use Rattle.running.specs.promises.Forming.{units_formed};
ghost use Rattle.running.specs.View.{units_of};
ghost use Rattle.engine.specs.promises.Deciding.{RowsReady};
ghost use Rattle.engine.specs.Studying.{Studies, AnswersRight};
ghost use Rattle.engine.specs.promises.Answering.{study_refused, Answers};

use crate::day::Day;
use crate::refusals::SHORT_BUFFER;
use running::Units;
use tables::Refusal;

// The day after a study, with the answer: how many bytes of the buffer are the answer file, or why it is
// refused.
#[derive(Clone, Copy)]
pub struct Studied {
    pub day: Day,
    pub answer: Result<usize, Refusal>,
}

impl Day {
    // Studies the files, and writes the answer file from the start of the buffer. Curves or parents of no
    // bytes are none.
    pub fn study(
        self,
        constraint: &[u8],
        supply: &[u8],
        schedules: &[u8],
        curves: &[u8],
        parents: &[u8],
        answer: &mut [u8],
    ) -> Studied
        ensures studies { Studies self (files constraint.now supply.now schedules.now curves.now parents.now) answer.old answer.new result }
        ensures answers_right { AnswersRight self (files constraint.now supply.now schedules.now curves.now parents.now) answer.new result }
    {
        let mut rows = [0u64; answer::CELLS];
        let deciding = self.decide(constraint, supply, schedules, curves, parents, &mut rows);
        match deciding {
            Err(refusal) => self.refuse_study(refusal),
            Ok(decided) => self.answer_rows(decided.hour, &rows, decided.count, answer),
        }
    }

    // Writes the answer of `count` rows, and puts their choices into the day.
    fn answer_rows(self, hour: u64, rows: &[u64], count: usize, answer: &mut [u8]) -> Studied
        requires units_value { units_formed (units_of self.units) ≡ true }
        requires rows_ready { RowsReady (units_of self.units) count rows.now }
        ensures { Answers self hour (answer_rows count rows.now) answer.old answer.new result }
    {
        if answer.len() < answer::length(rows, count) {
            return self.refuse_study(Refusal::bare(SHORT_BUFFER));
        }
        let written = answer::write(rows, count, answer);
        let running = self.units;
        let day = Day {
            hour: Some(hour),
            units: running.merged(Units::chosen(rows, count)),
        };
        Studied {
            day,
            answer: Ok(written),
        }
    }

    // The very day, with a refusal.
    fn refuse_study(self, refusal: Refusal) -> Studied
        ensures { result ≡ study_refused self refusal }
    {
        Studied {
            day: self,
            answer: Err(refusal),
        }
    }
}
