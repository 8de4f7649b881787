// What a program of cases reads, and its text gone through. Assumes nothing.
ghost use Rattle.std.specs.Prelude.{◌≡◌, OnErr, IfErr, Err, length};
ghost use Rattle.std.specs.Io.{ReadsAtMost};

use crate::lines::LF;
use std::io;
use texts::{behind, fill};

// Reads standard input to the start of the room, until it is full or the input ends, and answers how
// many bytes it read. An error is that of a read, and leaves the room as long as it was.
pub fn read_input(rt: &impl Input, room: &mut [u8]) -> io::Result<usize>
    ensures count { ReadsAtMost result room.new }
    ensures err { OnErr result (length room.new ≡ length room.old) }
{
    fill(&mut rt.reader(), room)
}

// Answers each line of a text, with all that comes behind it, in their order. An error is that of a line.
pub fn each_line<F: FnMut(&[u8]) -> io::Result<()>>(text: &[u8], mut answer: F) -> io::Result<()>
    requires { F.IsAlwaysCallable answer }
    ensures { IfErr result (λ e. (state : F) × (line : _) × (after : F) × F.step state line (Err e) after) }
{
    let mut rest = text;
    while 0 < rest.len() {
        answer(rest)?;
        let next = behind(rest, LF);
        rest = &rest[next..];
    }
    Ok(())
}
