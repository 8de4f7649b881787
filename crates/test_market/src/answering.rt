// A case, from its lines to what it is about. Assumes nothing of the lines.
use crate::report::{case, print_number};
use std::io;
use tables::File;
use test_cases::{BLANK, LF, put_file, unreadable};
use texts::{after, first, same_text};

// The largest relief.
const RELIEF: u64 = 1000000;

// Room for more than the longest file of a case.
const FILE: usize = 4096;

// Answers the case that a text begins with; does nothing where its first line begins none.
pub fn answer(rt: &impl Print, text: &[u8]) -> io::Result<()> {
    let line = first(text, LF);
    if !test_cases::is_case(line) {
        return Ok(());
    }
    let name = first(line, BLANK);
    let numbers = after(line, BLANK);
    if same_text(name, b"offer") {
        offer(rt, numbers)
    } else if same_text(name, b"market") {
        market(rt, numbers, after(text, LF))
    } else {
        unreadable(rt)
    }
}

fn offer(rt: &impl Print, number: &[u8]) -> io::Result<()> {
    let Some(cost) = numeral::read(number, 0, u64::MAX) else {
        return unreadable(rt);
    };
    print_number(rt, b"", cost)?;
    print_number(rt, b" ", offers::capped(cost))?;
    rt.write_all(b"\n")
}

fn market(rt: &impl Print, numbers: &[u8], rows: &[u8]) -> io::Result<()> {
    let Some(relief) = numeral::read(first(numbers, BLANK), 0, u64::MAX) else {
        return unreadable(rt);
    };
    let Some(cutoff) = numeral::read(after(numbers, BLANK), 0, u64::MAX) else {
        return unreadable(rt);
    };
    supplied(rt, relief, cutoff, rows)
}

fn supplied(rt: &impl Print, relief: u64, cutoff: u64, rows: &[u8]) -> io::Result<()> {
    if RELIEF < relief {
        return unreadable(rt);
    }
    let mut supply = [0u8; FILE];
    let count = put_file(File::Supply, rows, &mut supply);
    if count == FILE {
        return unreadable(rt);
    }
    case(rt, relief, cutoff, &supply[0..count])
}
