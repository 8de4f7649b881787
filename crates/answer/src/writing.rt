// The text of an answer, written from the start of a lent buffer. Each next row, and each next part
// of a row, is written into the rest of the buffer. Bytes past the answer stay.
ghost use Rattle.std.specs.Prelude.{◌+◌, ◌*◌, ◌≤◌, ◌<◌, length, get_or};
ghost use Rattle.base.specs.Search.{All};
ghost use Rattle.base.specs.Text.{together};
ghost use Rattle.base.specs.promises.Writing.{Wrote};
ghost use Rattle.cells.specs.promises.Letters.{Lettered};
ghost use Rattle.cells.specs.promises.Views.{answer_rows, answer_at, answer_width};
ghost use Rattle.outcome.specs.Answer.{answer_header, answer_text, line};
ghost use Rattle.answer.specs.promises.Parts.{number_field, letter_field, last_field, ids_part, test_part, schedule_part};

use cells::answer;

const COMMA: u8 = b',';

const CR: u8 = b'\r';

const LF: u8 = b'\n';

// Writes the answer's text, and answers its length.
pub fn write(cells: &[u64], n: usize, out: &mut [u8]) -> usize
    requires n_in_bounds { n * 7 ≤ length cells.now }
    requires all { All Lettered (answer_rows n cells.now) }
    requires cells_in_bounds { length (answer_text (answer_rows n cells.now)) ≤ length out.old }
    ensures { Wrote (answer_text (answer_rows n cells.now)) result out.old out.new }
{
    let mut at = write_header(out);
    at += write_rows(cells, n, &mut out[at..]);
    at
}

fn write_header(out: &mut [u8]) -> usize
    requires { length answer_header ≤ length out.old }
    ensures { Wrote answer_header result out.old out.new }
{
    put(b"unit,supplier,verdict,left,schedule,kind,cost\r\n", out)
}

// Puts a text at the start of a buffer that has room for it, and answers its length.
fn put(text: &[u8], out: &mut [u8]) -> usize
    requires { length text.now ≤ length out.old }
    ensures { Wrote text.now result out.old out.new }
{
    let n = text.len();
    out[..n].copy_from_slice(text);
    n
}

fn write_rows(cells: &[u64], n: usize, out: &mut [u8]) -> usize
    requires n_in_bounds { n * 7 ≤ length cells.now }
    requires all { All Lettered (answer_rows n cells.now) }
    requires cells_in_bounds { length (together line (answer_rows n cells.now)) ≤ length out.old }
    ensures { Wrote (together line (answer_rows n cells.now)) result out.old out.new }
{
    let mut at = 0;
    for i in 0..n {
        at += write_row(cells, i, &mut out[at..]);
    }
    at
}

// The record of the row at `i`.
fn write_row(cells: &[u64], i: usize, out: &mut [u8]) -> usize
    requires i_in_bounds { i * 7 + 7 ≤ length cells.now }
    requires lettered { Lettered (answer_at cells.now i) }
    requires i_in_bounds_2 { length (line (answer_at cells.now i)) ≤ length out.old }
    ensures { Wrote (line (answer_at cells.now i)) result out.old out.new }
{
    let mut at = write_ids(cells, i, out);
    at += write_test(cells, i, &mut out[at..]);
    at += write_schedule(cells, i, &mut out[at..]);
    at
}

// Unit and supplier.
fn write_ids(cells: &[u64], i: usize, out: &mut [u8]) -> usize
    requires i_in_bounds { i * 7 + 7 ≤ length cells.now }
    requires i_in_bounds_2 { length (ids_part (answer_at cells.now i)) ≤ length out.old }
    ensures { Wrote (ids_part (answer_at cells.now i)) result out.old out.new }
{
    let mut at = write_number(cells, i, answer::UNIT, out);
    at += write_number(cells, i, answer::SUPPLIER, &mut out[at..]);
    at
}

// Verdict and left.
fn write_test(cells: &[u64], i: usize, out: &mut [u8]) -> usize
    requires i_in_bounds { i * 7 + 7 ≤ length cells.now }
    requires lettered { Lettered (answer_at cells.now i) }
    requires i_in_bounds_2 { length (test_part (answer_at cells.now i)) ≤ length out.old }
    ensures { Wrote (test_part (answer_at cells.now i)) result out.old out.new }
{
    let mut at = write_letter(cells, i, answer::VERDICT, out);
    at += write_number(cells, i, answer::LEFT, &mut out[at..]);
    at
}

// Schedule, kind and cost, and the record's end.
fn write_schedule(cells: &[u64], i: usize, out: &mut [u8]) -> usize
    requires i_in_bounds { i * 7 + 7 ≤ length cells.now }
    requires lettered { Lettered (answer_at cells.now i) }
    requires i_in_bounds_2 { length (schedule_part (answer_at cells.now i)) ≤ length out.old }
    ensures { Wrote (schedule_part (answer_at cells.now i)) result out.old out.new }
{
    let mut at = write_number(cells, i, answer::SCHEDULE, out);
    at += write_letter(cells, i, answer::KIND, &mut out[at..]);
    at += write_last(cells, i, answer::COST, &mut out[at..]);
    at
}

// The number in a cell, and the comma behind it.
fn write_number(cells: &[u64], i: usize, column: usize, out: &mut [u8]) -> usize
    requires i_in_bounds { i * 7 + 7 ≤ length cells.now }
    requires column_bound { column < 7 }
    requires column_in_bounds { length (number_field (get_or cells.now (i * answer_width + column) 0)) ≤ length out.old }
    ensures { Wrote (number_field (get_or cells.now (i * answer_width + column) 0)) result out.old out.new }
{
    let at = numeral::write(answer::cell(cells, i, column), out);
    out[at] = COMMA;
    at + 1
}

// The letter in a cell, and the comma behind it.
fn write_letter(cells: &[u64], i: usize, column: usize, out: &mut [u8]) -> usize
    requires i_in_bounds { i * 7 + 7 ≤ length cells.now }
    requires column_bound { column < 7 }
    requires column_bound_2 { get_or cells.now (i * answer_width + column) 0 < 256 }
    requires column_in_bounds { length (letter_field (get_or cells.now (i * answer_width + column) 0)) ≤ length out.old }
    ensures { Wrote (letter_field (get_or cells.now (i * answer_width + column) 0)) result out.old out.new }
{
    out[0] = answer::cell(cells, i, column) as u8;
    out[1] = COMMA;
    2
}

// The number in a record's last cell, and the CR LF behind it.
fn write_last(cells: &[u64], i: usize, column: usize, out: &mut [u8]) -> usize
    requires i_in_bounds { i * 7 + 7 ≤ length cells.now }
    requires column_bound { column < 7 }
    requires column_in_bounds { length (last_field (get_or cells.now (i * answer_width + column) 0)) ≤ length out.old }
    ensures { Wrote (last_field (get_or cells.now (i * answer_width + column) 0)) result out.old out.new }
{
    let at = numeral::write(answer::cell(cells, i, column), out);
    out[at] = CR;
    out[at + 1] = LF;
    at + 2
}
