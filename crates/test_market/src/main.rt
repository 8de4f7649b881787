// Cases of the market and of the test of its suppliers, from standard input, and a line for each. The
// file `stdout` is what an independent peer answered, written from document 01 alone with exact
// fractions, and on costs above 200000 what F-4 says, by hand. A case is
//
//     offer COST                the capped offer
//     market RELIEF CUTOFF      the market of the supply rows that follow, indented by two spaces
//
// Lines are those of the crate `test_cases`. Assumes nothing; a line that is not in the form prints
// `unreadable case`.
#![tactic(auto)]

mod answering;
mod report;

use std::io;
use test_cases::{each_line, read_input};

// Room for all cases.
const INPUT: usize = 65536;

fn main(rt: HostRuntime) -> io::Result<()> {
    let mut input = [0u8; INPUT];
    let count = read_input(&rt, &mut input)?;
    run(&rt, &input[0..count])
}

fn run(rt: &impl Print, text: &[u8]) -> io::Result<()> {
    each_line(text, |rest| answering::answer(rt, rest))
}
