// How long the text of an answer is, known before its first byte is written.
ghost use Rattle.std.specs.Prelude.{◌≡◌, ◌+◌, ◌*◌, ◌≤◌, ◌<◌, get_or, length as list_length};
ghost use Rattle.cells.specs.promises.Views.{answer_rows, answer_at, answer_width};
ghost use Rattle.outcome.specs.Answer.{answer_text};
ghost use Rattle.answer.specs.promises.Lengths.{NumeralLength, LineLength};

use cells::answer;

// The header record.
const HEADER: usize = 47;

// The commas of a row, its two letters and its CR LF.
const FIXED: usize = 10;

// The length of the answer's text.
pub fn length(cells: &[u64], n: usize) -> usize
    requires n_bound { n * 7 ≤ list_length cells.now }
    requires n_bound_2 { n ≤ 64 }
    ensures { result ≡ list_length (answer_text (answer_rows n cells.now)) }
{
    let mut at = HEADER;
    for i in 0..n {
        at += line_length(cells, i);
    }
    at
}

// The length of the record of the row at `i`.
fn line_length(cells: &[u64], i: usize) -> usize
    requires { i * 7 + 7 ≤ list_length cells.now }
    ensures { LineLength (answer_at cells.now i) result }
{
    let unit = numeral_length(cells, i, answer::UNIT);
    let supplier = numeral_length(cells, i, answer::SUPPLIER);
    let left = numeral_length(cells, i, answer::LEFT);
    let schedule = numeral_length(cells, i, answer::SCHEDULE);
    let cost = numeral_length(cells, i, answer::COST);
    unit + supplier + left + schedule + cost + FIXED
}

// The length of the numeral of a cell.
fn numeral_length(cells: &[u64], i: usize, column: usize) -> usize
    requires i_bound { i * 7 + 7 ≤ list_length cells.now }
    requires column_bound { column < 7 }
    ensures { NumeralLength (get_or cells.now (i * answer_width + column) 0) result }
{
    numeral::digit_count(answer::cell(cells, i, column))
}
