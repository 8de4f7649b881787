// The program: studies the files of the folder that it is run in with a fresh day, and prints
// the answer file, or why there is none. Assumes nothing of the folder. What a file holds and what is
// printed can't be said in a contract; what a study of those bytes gives is said by `study_in_room`.
#![tactic(auto)]

ghost use Rattle.tables.specs.Refusals.{count_of, told_by};
ghost use Rattle.std.specs.Prelude.{◌≡◌, ◌≢◌, ◌≤◌, OnErr, length};
ghost use Rattle.std.specs.Io.{ReadsAtMost};
ghost use Rattle.checking.specs.Files.{files};
ghost use Rattle.longest.specs.Longest.{longest};
ghost use Rattle.study.specs.FreshStudy.{StudiesFresh};

use engine::Day;
use std::rt::Files;
use std::{fs, io};
use tables::Refusal;
use texts::fill;

// The most bytes that a file may have: 64 KiB.
const MOST: usize = 65536;

// Room for one more, by which a file that is too long is known.
const ROOM: usize = MOST + 1;

fn main(rt: HostRuntime) -> io::Result<()> {
    let mut constraint = [0u8; ROOM];
    let mut supply = [0u8; ROOM];
    let mut schedules = [0u8; ROOM];
    let mut curves = [0u8; ROOM];
    let mut parents = [0u8; ROOM];
    run(
        &rt,
        &mut constraint,
        &mut supply,
        &mut schedules,
        &mut curves,
        &mut parents,
    )
}

// Reads the files into the room lent, and studies them; one that is too long comes before every refusal.
fn run(
    rt: &(impl Files + Print),
    constraint: &mut [u8],
    supply: &mut [u8],
    schedules: &mut [u8],
    curves: &mut [u8],
    parents: &mut [u8],
) -> io::Result<()> {
    let c = read(rt, "constraint.csv", constraint)?;
    let s = read(rt, "supply.csv", supply)?;
    let t = read(rt, "schedules.csv", schedules)?;
    let k = read(rt, "curves.csv", curves)?;
    let p = read(rt, "parents.csv", parents)?;
    if MOST < c || MOST < s || MOST < t || MOST < k || MOST < p {
        return rt.write_all(b"too long\r\n");
    }
    study(
        rt,
        &constraint[0..c],
        &supply[0..s],
        &schedules[0..t],
        &curves[0..k],
        &parents[0..p],
    )
}

// Reads the file of this name to the start of the room, until it is full, and answers how many bytes
// it read: none of a file that can't be opened. An error is that of a read, and leaves the room as long
// as it was.
fn read(rt: &impl Files, name: &str, room: &mut [u8]) -> io::Result<usize>
    ensures count { ReadsAtMost result room.new }
    ensures err { OnErr result (length room.new ≡ length room.old) }
{
    match fs::open(rt, name) {
        Ok(mut file) => fill(&mut file, room),
        Err(_) => Ok(0),
    }
}

// Studies the files with room for the longest answer, and prints the answer file or the refusal.
fn study(
    rt: &impl Print,
    constraint: &[u8],
    supply: &[u8],
    schedules: &[u8],
    curves: &[u8],
    parents: &[u8],
) -> io::Result<()> {
    let mut room = [0u8; longest::LONGEST];
    let answer = study_in_room(constraint, supply, schedules, curves, parents, &mut room);
    print_study(rt, answer, &room)
}

// Studies the files with a fresh day. The room holds the longest answer, so 10 is never met.
fn study_in_room(
    constraint: &[u8],
    supply: &[u8],
    schedules: &[u8],
    curves: &[u8],
    parents: &[u8],
    room: &mut [u8],
) -> Result<usize, Refusal>
    requires { longest ≤ length room.old }
    ensures studies_fresh { StudiesFresh (files constraint.now supply.now schedules.now curves.now parents.now) room.old room.new result }
    ensures room_enough { (told_by result).number ≢ 10 }
    ensures result_in_bounds { count_of result ≤ length room.new }
{
    let studied = Day::fresh().study(constraint, supply, schedules, curves, parents, room);
    studied.answer
}

// Prints the answer file, which stands at the start of the room, or the refusal.
fn print_study(rt: &impl Print, answer: Result<usize, Refusal>, room: &[u8]) -> io::Result<()>
    requires { count_of answer ≤ length room.now }
{
    match answer {
        Ok(count) => rt.write_all(&room[0..count]),
        Err(refusal) => print!(rt; "{refusal}\r\n"),
    }
}
