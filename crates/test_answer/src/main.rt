// Cases of the answer's text: how long it is, then the bytes lent for it and three behind them, in a
// buffer full of dots. The file `stdout` was made from document 01 alone. Assumes nothing.
#![tactic(auto)]

ghost use Rattle.std.specs.Prelude.{◌+◌, ◌*◌, ◌≤◌, length};
ghost use Rattle.base.specs.Search.{All};
ghost use Rattle.cells.specs.promises.Letters.{Lettered};
ghost use Rattle.cells.specs.promises.Views.{answer_rows};

use answer::CELLS;
use cells::answer::WIDTH;
use longest::LONGEST;
use std::io;

mod letters;
mod rows;

// The bytes of the buffer that are not lent.
const BEHIND: usize = 3;

const BUFFER: usize = LONGEST + BEHIND;

fn main(rt: HostRuntime) -> io::Result<()> {
    no_rows(&rt)?;
    starred(&rt)?;
    fields(&rt)?;
    longest_answer(&rt)
}

fn no_rows(rt: &impl Print) -> io::Result<()> {
    run(rt, &[], 0, 47)?;
    run(rt, &[], 0, 50)?;
    run(rt, &[], 0, 46)
}

fn starred(rt: &impl Print) -> io::Result<()> {
    run(rt, &rows::STARRED, 4, 138)?;
    run(rt, &rows::STARRED, 4, 145)?;
    run(rt, &rows::STARRED, 4, 137)?;
    run(rt, &rows::STARRED, 1, 138)
}

fn fields(rt: &impl Print) -> io::Result<()> {
    run(rt, &rows::NARROWEST, 1, 70)?;
    run(rt, &rows::LARGEST, 1, 160)?;
    run(rt, &rows::NO_LETTER, 1, 160)
}

fn longest_answer(rt: &impl Print) -> io::Result<()> {
    let cells = widest();
    run(rt, &cells, 64, LONGEST)?;
    run(rt, &cells, 63, LONGEST)?;
    run(rt, &cells, 64, LONGEST - 1)
}

// As many of the widest rows as an answer can have.
fn widest() -> [u64; CELLS] {
    let mut cells = [0u64; CELLS];
    for row in cells.chunks_exact_mut(WIDTH) {
        row.copy_from_slice(&rows::WIDEST);
    }
    cells
}

fn run(rt: &impl Print, cells: &[u64], n: usize, room: usize) -> io::Result<()>
    requires n_in_bounds { n * 7 ≤ length cells.now }
    requires n_bound { n ≤ 64 }
    requires room_bound { room ≤ LONGEST }
{
    if !letters::lettered(cells, n) {
        return rt.write_all(b"no letters\n");
    }
    let mut buffer = [b'.'; BUFFER];
    show(rt, cells, n, room, &mut buffer)
}

// Writes into the first `room` bytes of `out`, and prints those and the bytes behind them.
fn show(rt: &impl Print, cells: &[u64], n: usize, room: usize, out: &mut [u8]) -> io::Result<()>
    requires n_in_bounds { n * 7 ≤ length cells.now }
    requires n_bound { n ≤ 64 }
    requires all { All Lettered (answer_rows n cells.now) }
    requires room_in_bounds { room + 3 ≤ length out.old }
{
    let needed = answer::length(cells, n);
    print!(rt; "{needed}")?;
    if room < needed {
        return rt.write_all(b" too short\n");
    }
    let count = answer::write(cells, n, &mut out[0..room]);
    println!(rt; " {count}")?;
    let end = room + BEHIND;
    rt.write_all(&out[0..end])?;
    rt.write_all(b"\n")
}
