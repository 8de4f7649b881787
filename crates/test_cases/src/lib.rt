// What programs of cases share: which lines are cases, the bytes that a text with escapes stands for,
// a file's header and rows, reading and printing. A line begins a case, unless it is empty, begins with `#`, or
// begins with a blank and so goes on with the case above it. In a case `\r`, `\n`, `\t`, `\s` (a space),
// `\\` and `\xHH` stand for one byte.
//
// A writer writes at the start of `out` and answers how many bytes it wrote, or the whole of `out`
// where the text isn't in the form or has no room. A writer behind it then has no room either, so
// bytes that fill their buffer are those of a case that can't be read; with an `Option` in its place a file
// that just fills its room would be read. Assumes nothing.
#![tactic(auto)]

mod escapes;
mod files;
mod lines;
mod printing;
mod reading;

pub use escapes::put;
pub use files::{put_file, put_header, put_many};
pub use lines::{BLANK, LF, is_case};
pub use printing::unreadable;
pub use reading::{each_line, read_input};
