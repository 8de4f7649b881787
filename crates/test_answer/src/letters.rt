// Whether the letters of rows are bytes, which the writing of an answer asks for.
ghost use Rattle.std.specs.Prelude.{◌≡◌, true, ◌+◌, ◌*◌, ◌≤◌, length};
ghost use Rattle.base.specs.Search.{All};
ghost use Rattle.cells.specs.promises.Letters.{Lettered};
ghost use Rattle.cells.specs.promises.Views.{answer_at, answer_rows};

use cells::answer::{KIND, VERDICT, WIDTH};

const LARGEST: u64 = 255;

pub fn lettered(cells: &[u64], n: usize) -> bool
    requires { n * 7 ≤ length cells.now }
    ensures { result ≡ true → All Lettered (answer_rows n cells.now) }
{
    for i in (0..n).rev() {
        if !row_lettered(cells, i) {
            return false;
        }
    }
    true
}

fn row_lettered(cells: &[u64], i: usize) -> bool
    requires { i * 7 + 7 ≤ length cells.now }
    ensures { result ≡ true → Lettered (answer_at cells.now i) }
{
    if LARGEST < cells[i * WIDTH + VERDICT] {
        return false;
    }
    if LARGEST < cells[i * WIDTH + KIND] {
        return false;
    }
    true
}
