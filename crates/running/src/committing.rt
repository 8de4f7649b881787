// Committing an accepted study: each unit of its answer runs on the chosen schedule, and every other
// running unit stays as it was. What the answer has running and what runs both rise, so they are
// merged in one pass. Assumes that the running units are well-formed and that what would run fits in
// a day.
ghost use Rattle.std.specs.Prelude.{◌≡◌, true, map, ◌+◌, ◌*◌, ◌≤◌, ◌<◌, length};
ghost use Rattle.cells.specs.promises.Views.{answer_width, answer_at, answer_rows};
ghost use Rattle.outcome.specs.Day.{most_running, put_all};
ghost use Rattle.outcome.specs.Study.{chosen as study_chosen};
ghost use Rattle.running.specs.promises.Committing.{Fits, any_left, Turns};
ghost use Rattle.running.specs.promises.Forming.{units_formed};
ghost use Rattle.running.specs.View.{unit_of, units_of};

use crate::units::{Running, Units};
use cells::answer::{KIND, SCHEDULE, UNIT, cell};
use tables::kind_of;

// The unit that is next, and how many running and how many chosen units it uses up.
#[derive(Clone, Copy)]
struct Turn {
    next: Running,
    running: usize,
    chosen: usize,
}

impl Units {
    // What the first `n` rows of an answer have running.
    pub fn chosen(rows: &[u64], n: usize) -> Units
        requires n_le_most_running { n ≤ most_running }
        requires answer_width_in_bounds { n * answer_width ≤ length rows.now }
        ensures { units_of result ≡ map study_chosen (answer_rows n rows.now) }
    {
        let none = Units::none();
        let mut running = none.running;
        for i in 0..n {
            let r = chosen_at(rows, i);
            running[i] = r;
        }
        Units { count: n, running }
    }

    // These units once a study is accepted that has chosen those.
    pub fn merged(self, chosen: Units) -> Units
        requires self_value { units_formed (units_of self) ≡ true }
        requires count_le_most_running { chosen.count ≤ most_running }
        requires fits { Fits (units_of chosen) (units_of self) }
        ensures { units_of result ≡ put_all (units_of chosen) (units_of self) }
    {
        let mut running = self.running;
        let mut count = 0;
        let mut i = 0;
        let mut j = 0;
        while is_left(i, self.count, j, chosen.count) {
            let turn = self.turn(chosen, i, j);
            let r = turn.next;
            running[count] = r;
            count += 1;
            i += turn.running;
            j += turn.chosen;
        }
        Units { count, running }
    }

    // The next unit where the first `i` running and the first `j` chosen units are used up.
    fn turn(self, chosen: Units, i: usize, j: usize) -> Turn
        requires count_le_most_running { self.count ≤ most_running }
        requires count_le_most_running_2 { chosen.count ≤ most_running }
        requires fits { Fits (units_of chosen) (units_of self) }
        requires i_le_count { (i ≤ self.count) × (j ≤ chosen.count) × (i + j < self.count + chosen.count) }
        ensures { Turns (units_of chosen) (units_of self) i j result }
    {
        if i == self.count {
            let c = chosen.running[j];
            return Turn {
                next: c,
                running: 0,
                chosen: 1,
            };
        }
        let r = self.running[i];
        if j == chosen.count {
            return Turn {
                next: r,
                running: 1,
                chosen: 0,
            };
        }
        let c = chosen.running[j];
        if r.unit < c.unit {
            return Turn {
                next: r,
                running: 1,
                chosen: 0,
            };
        }
        if r.unit == c.unit {
            return Turn {
                next: c,
                running: 1,
                chosen: 1,
            };
        }
        Turn {
            next: c,
            running: 0,
            chosen: 1,
        }
    }
}

// Whether running or chosen units are left.
fn is_left(i: usize, count: usize, j: usize, n: usize) -> bool
    ensures { result ≡ any_left i count j n }
{
    if i < count {
        return true;
    }
    j < n
}

// What the row at a place has running.
fn chosen_at(rows: &[u64], row: usize) -> Running
    requires { row * answer_width + answer_width ≤ length rows.now }
    ensures { unit_of result ≡ study_chosen (answer_at rows.now row) }
{
    Running {
        unit: cell(rows, row, UNIT),
        schedule: cell(rows, row, SCHEDULE),
        kind: kind_of(cell(rows, row, KIND)),
    }
}
