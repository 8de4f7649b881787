// A case, from its line to the bytes of its file. Assumes nothing of the line.
ghost use Rattle.std.specs.Prelude.{◌≤◌, length};

use crate::report::case;
use std::io;
use tables::File;
use test_cases::{BLANK, put, put_header, put_many, unreadable};
use texts::{after, first, same_text};

// Room for more than the longest file that a case builds, of 4,097 short rows.
const FILE_BYTES: usize = 65536;

// Reads the file of a case and prints what comes of it; does nothing with a line that is no case.
pub fn answer(rt: &impl Print, line: &[u8]) -> io::Result<()> {
    if !test_cases::is_case(line) {
        return Ok(());
    }
    let name = first(line, BLANK);
    let form = after(line, BLANK);
    if same_text(name, b"constraint") {
        one(rt, File::Constraint, form)
    } else if same_text(name, b"supply") {
        one(rt, File::Supply, form)
    } else if same_text(name, b"schedules") {
        one(rt, File::Schedules, form)
    } else if same_text(name, b"curves") {
        one(rt, File::Curves, form)
    } else if same_text(name, b"parents") {
        one(rt, File::Parents, form)
    } else {
        unreadable(rt)
    }
}

fn one(rt: &impl Print, file: File, form: &[u8]) -> io::Result<()> {
    let mut bytes = [0u8; FILE_BYTES];
    let count = build(file, form, &mut bytes);
    if count < FILE_BYTES {
        case(rt, file, &bytes[0..count])
    } else {
        unreadable(rt)
    }
}

// Writes the file.
fn build(file: File, form: &[u8], out: &mut [u8]) -> usize
    ensures { result ≤ length out.new }
{
    let name = first(form, BLANK);
    let rest = after(form, BLANK);
    if same_text(name, b"file") {
        return put(rest, out);
    }
    let mut at = put_header(file, out);
    at += rows(name, rest, &mut out[at..]);
    at
}

// Writes what stands behind the header.
fn rows(name: &[u8], text: &[u8], out: &mut [u8]) -> usize
    ensures { result ≤ length out.new }
{
    if same_text(name, b"rows") {
        return put(text, out);
    }
    if same_text(name, b"many") {
        return put_many(text, out);
    }
    out.len()
}
