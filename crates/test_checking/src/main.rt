// Cases of checking three files, from standard input, and a line for each: the refusal as number, file
// and place, or `rows` with how many rows supply and schedules have and how many units. The file
// `stdout` was made without the engine, by an independent peer written from document 01 alone. A case
// is
//
//     CONSTRAINT;SUPPLY;SCHEDULES
//
// where each is what stands behind the header of that file. Digits, letters, `,` and `-` stand for
// themselves, and any other byte is a mark, for which a line of its own says what it stands for in
// each of the three files:
//
//     MARK:N ROW BYTES;N ROW BYTES;N ROW BYTES
//
// ROW N times over, and BYTES behind it, or nothing where the file never has this mark. Lines and
// escapes are those of the crate `test_cases`. Assumes nothing; a line that is not in the form prints
// `unreadable case`.
#![tactic(auto)]

mod building;
mod report;

use std::io;
use test_cases::{LF, each_line, read_input};
use texts::first;

// Room for all cases.
const INPUT: usize = 65536;

fn main(rt: HostRuntime) -> io::Result<()> {
    let mut input = [0u8; INPUT];
    let count = read_input(&rt, &mut input)?;
    run(&rt, &input[0..count])
}

fn run(rt: &impl Print, text: &[u8]) -> io::Result<()> {
    each_line(text, |rest| building::answer(rt, text, first(rest, LF)))
}
