// A case, from its line to the bytes of its files; what a mark stands for is found in the whole text.
// Assumes nothing of either.
ghost use Rattle.std.specs.Prelude.{◌≤◌, length};

use crate::report::case;
use std::io;
use tables::File;
use test_cases::{LF, put, put_header, put_many, unreadable};
use texts::{after, behind, first, same_text};

const SEMICOLON: u8 = b';';

const COLON: u8 = b':';

// Room for more than the longest file that a case builds, of 1,027 short rows.
const FILE: usize = 32768;

// Files the files of a case and prints what comes of it; does nothing with a line that is no case.
pub fn answer(rt: &impl Print, text: &[u8], line: &[u8]) -> io::Result<()> {
    if !test_cases::is_case(line) {
        return Ok(());
    }
    // A line with a colon says what a mark stands for.
    if first(line, COLON).len() < line.len() {
        return Ok(());
    }
    // A case has two semicolons.
    let rest = after(line, SEMICOLON);
    if first(rest, SEMICOLON).len() == rest.len() {
        return unreadable(rt);
    }
    with_constraint(rt, text, line)
}

// Writes the constraint, and goes on to the other files. Each file has a function, in whose frame its room
// lies while the next is written.
fn with_constraint(rt: &impl Print, text: &[u8], line: &[u8]) -> io::Result<()> {
    let mut bytes = [0u8; FILE];
    let count = build(File::Constraint, text, line, &mut bytes);
    if count == FILE {
        return unreadable(rt);
    }
    with_supply(rt, text, line, &bytes[0..count])
}

fn with_supply(rt: &impl Print, text: &[u8], line: &[u8], constraint: &[u8]) -> io::Result<()> {
    let mut bytes = [0u8; FILE];
    let count = build(File::Supply, text, line, &mut bytes);
    if count == FILE {
        return unreadable(rt);
    }
    with_schedules(rt, text, line, constraint, &bytes[0..count])
}

fn with_schedules(
    rt: &impl Print,
    text: &[u8],
    line: &[u8],
    constraint: &[u8],
    supply: &[u8],
) -> io::Result<()> {
    let mut bytes = [0u8; FILE];
    let count = build(File::Schedules, text, line, &mut bytes);
    if count == FILE {
        return unreadable(rt);
    }
    case(rt, constraint, supply, &bytes[0..count])
}

// Writes a file.
fn build(file: File, text: &[u8], line: &[u8], out: &mut [u8]) -> usize
    ensures { result ≤ length out.new }
{
    let mut at = put_header(file, out);
    at += put_rows(file, text, part(file, line), &mut out[at..]);
    at
}

// What a line has for a file.
fn part(file: File, line: &[u8]) -> &[u8] {
    match file {
        File::Constraint => first(line, SEMICOLON),
        File::Supply => first(after(line, SEMICOLON), SEMICOLON),
        File::Schedules => after(after(line, SEMICOLON), SEMICOLON),
        // Cases have neither curves nor parents.
        File::Curves => &line[0..0],
        File::Parents => &line[0..0],
    }
}

fn put_rows(file: File, text: &[u8], rows: &[u8], out: &mut [u8]) -> usize
    ensures { result ≤ length out.new }
{
    let mut at = 0;
    for byte in rows {
        at += put_byte(file, text, *byte, &mut out[at..]);
    }
    at
}

// Writes what a byte stands for.
fn put_byte(file: File, text: &[u8], byte: u8, out: &mut [u8]) -> usize
    ensures { result ≤ length out.new }
{
    if is_plain(byte) {
        return put(&[byte], out);
    }
    put_many(part(file, meaning(text, byte)), out)
}

// Whether a byte stands for itself.
fn is_plain(byte: u8) -> bool {
    match byte {
        b'0'..=b'9' | b'A'..=b'Z' | b'a'..=b'z' | b',' | b'-' => true,
        _ => false,
    }
}

// What a mark stands for in the three files; nothing where no line says it.
fn meaning(text: &[u8], mark: u8) -> &[u8] {
    let mut rest = text;
    while 0 < rest.len() {
        if same_text(first(rest, COLON), &[mark]) {
            return after(first(rest, LF), COLON);
        }
        let next = behind(rest, LF);
        rest = &rest[next..];
    }
    rest
}
