// A case, from its lines to the unit's rows and how it stands. Assumes nothing of the lines.
use crate::report::case;
use hours::LAST_HOUR;
use std::io;
use tables::{File, Kind};
use test_cases::{BLANK, LF, put_file, unreadable};
use texts::{after, first, same_text};

// Room for more than the longest file of a case.
const FILE: usize = 4096;

// Answers the case that a text begins with; does nothing where its first line begins none.
pub fn answer(rt: &impl Print, text: &[u8]) -> io::Result<()> {
    let line = first(text, LF);
    if !test_cases::is_case(line) {
        return Ok(());
    }
    let Some(hour) = numeral::read(first(line, BLANK), 0, LAST_HOUR) else {
        return unreadable(rt);
    };
    exposed(rt, hour, after(line, BLANK), after(text, LF))
}

fn exposed(rt: &impl Print, hour: u64, words: &[u8], rows: &[u8]) -> io::Result<()> {
    let word = first(words, BLANK);
    let day = after(words, BLANK);
    if same_text(word, b"exposed") {
        running(rt, hour, true, day, rows)
    } else if same_text(word, b"not-exposed") {
        running(rt, hour, false, day, rows)
    } else {
        unreadable(rt)
    }
}

fn running(
    rt: &impl Print,
    hour: u64,
    is_exposed: bool,
    word: &[u8],
    rows: &[u8],
) -> io::Result<()> {
    if same_text(word, b"not-running") {
        ask(rt, hour, is_exposed, None, rows)
    } else if same_text(word, b"on-M") {
        ask(rt, hour, is_exposed, Some(Kind::M), rows)
    } else if same_text(word, b"on-C") {
        ask(rt, hour, is_exposed, Some(Kind::C), rows)
    } else {
        unreadable(rt)
    }
}

fn ask(
    rt: &impl Print,
    hour: u64,
    is_exposed: bool,
    day: Option<Kind>,
    rows: &[u8],
) -> io::Result<()> {
    let mut schedules = [0u8; FILE];
    let count = put_file(File::Schedules, rows, &mut schedules);
    if count == FILE {
        return unreadable(rt);
    }
    case(rt, hour, is_exposed, day, &schedules[0..count])
}
