// A room filled from what a reader gives. Assumes nothing.
ghost use Rattle.std.specs.Prelude.{◌≡◌, OnErr, length};
ghost use Rattle.std.specs.Io.{ReadsAtMost};

use std::io;
use std::io::Read;

// Reads to the start of the room, until it is full or the input ends, and answers how many bytes it
// read. An error is that of a read, and leaves the room as long as it was.
pub fn fill(input: &mut impl Read, room: &mut [u8]) -> io::Result<usize>
    ensures count { ReadsAtMost result room.new }
    ensures err { OnErr result (length room.new ≡ length room.old) }
{
    let mut done = 0;
    while done < room.len() {
        let n = input.read(&mut room[done..])?;
        if n == 0 {
            break;
        }
        done += n;
    }
    Ok(done)
}
