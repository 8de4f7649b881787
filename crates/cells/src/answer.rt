// The columns of a row of the answer, the cell of a row in one of them, and a whole row by value.
ghost use Rattle.std.specs.Prelude.{◌≡◌, ◌+◌, ◌*◌, ◌≤◌, ◌<◌, length, get_or};
ghost use Rattle.cells.specs.promises.Views.{answer_width, answer_at};

use tables::AnswerRow;

pub const WIDTH: usize = 7;

pub const UNIT: usize = 0;

pub const SUPPLIER: usize = 1;

// As its letter, as the kind below.
pub const VERDICT: usize = 2;

pub const LEFT: usize = 3;

pub const SCHEDULE: usize = 4;

pub const KIND: usize = 5;

pub const COST: usize = 6;

pub fn cell(cells: &[u64], row: usize, column: usize) -> u64
    requires answer_width_in_bounds { row * answer_width + answer_width ≤ length cells.now }
    requires column_lt_answer_width { column < answer_width }
    ensures { result ≡ get_or cells.now (row * answer_width + column) 0 }
{
    cells[row * WIDTH + column]
}

pub fn row_at(cells: &[u64], row: usize) -> AnswerRow
    requires { row * answer_width + answer_width ≤ length cells.now }
    ensures { result ≡ answer_at cells.now row }
{
    let at = row * WIDTH;
    AnswerRow {
        unit: cells[at + UNIT],
        supplier: cells[at + SUPPLIER],
        verdict: cells[at + VERDICT],
        left: cells[at + LEFT],
        schedule: cells[at + SCHEDULE],
        kind: cells[at + KIND],
        cost: cells[at + COST],
    }
}
