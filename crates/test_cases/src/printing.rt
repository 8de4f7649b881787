// What a program of cases prints. Assumes nothing.
use std::io;

// The line of a case that can't be read.
pub fn unreadable(rt: &impl Print) -> io::Result<()> {
    println!(rt; "unreadable case")
}
