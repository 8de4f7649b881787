// Cases of reading one file, from standard input, and a line for each: the refusal as number, file
// and place, or `rows N:` and every cell. The file `stdout` was made without the engine: the refusals
// are an independent peer's, and by hand where a cost or price is above 200000 (F-4), and the cells were
// worked from the papers. A case is
//
//     FILE file BYTES           a whole file
//     FILE rows BYTES           the right header, and these bytes behind it
//     FILE many N ROW BYTES     the right header, ROW N times over, and these bytes behind it
//
// where FILE is `constraint`, `supply`, `schedules`, `curves` or `parents`. One space stands between two
// words, and BYTES that are missing are none. Lines and escapes are those of the crate `test_cases`. Assumes
// nothing; a line that is not in the form prints `unreadable case`.
#![tactic(auto)]

mod building;
mod report;

use std::io;
use test_cases::{LF, each_line, read_input};
use texts::first;

// Room for all cases.
const INPUT: usize = 65536;

fn main(rt: HostRuntime) -> io::Result<()> {
    let mut input = [0u8; INPUT];
    let count = read_input(&rt, &mut input)?;
    run(&rt, &input[0..count])
}

fn run(rt: &impl Print, text: &[u8]) -> io::Result<()> {
    each_line(text, |rest| building::answer(rt, first(rest, LF)))
}
