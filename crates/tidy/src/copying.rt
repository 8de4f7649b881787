// A file without its quotes, copied line by line, each next line into the rest of the lent buffer. A file that is not
// refused has no line end inside a field, so its lines are its records. Assumes nothing of the bytes.
ghost use Rattle.std.specs.Prelude.{◌≡◌, ◌-◌, ◌≤◌, eqb, leb, length, get_or};
ghost use Rattle.base.specs.promises.Writing.{Wrote};
ghost use Rattle.tidy.specs.promises.Copying.{unquoted, last_end, copied, LineWritten};
ghost use Rattle.tidy.specs.promises.Tidies.{Copies};

use tables::Refusal;

const LF: u8 = 0x0A;

const CR: u8 = 0x0D;

const DQUOTE: u8 = 0x22;

// The buffer is shorter than the tidy file.
const SHORT_FOR_TIDY: u64 = 30;

// A line that was written: how many bytes of the text it takes, and how many of the buffer.
#[derive(Clone, Copy)]
struct Line {
    read: usize,
    written: usize,
}

// Copies `s` without its quotes, with a CR LF behind the last line too, unless the buffer is too short, and
// answers how many bytes it wrote.
pub fn copy_file(s: &[u8], out: &mut [u8]) -> Result<usize, Refusal>
    ensures { Copies s.now out.old out.new result }
{
    if !fits(s, out.len()) {
        return Err(Refusal::bare(SHORT_FOR_TIDY));
    }
    Ok(write_file(s, out))
}

// Whether the copy of `s` has room in so many bytes. Quotes are counted only where they decide that.
fn fits(s: &[u8], room: usize) -> bool
    ensures { result ≡ leb (length (copied s.now)) room }
{
    let end = last_end_length(s);
    if s.len() + end <= room {
        return true;
    }
    unquoted_length(s) + end <= room
}

fn unquoted_length(s: &[u8]) -> usize
    ensures { result ≡ length (unquoted s.now) }
{
    let mut count = 0;
    for &b in s {
        count += (b != DQUOTE) as usize;
    }
    count
}

fn write_file(s: &[u8], out: &mut [u8]) -> usize
    requires { length (copied s.now) ≤ length out.old }
    ensures { Wrote (copied s.now) result out.old out.new }
{
    let mut at = write_lines(s, out);
    at += write_last_end(s, &mut out[at..]);
    at
}

fn write_lines(s: &[u8], out: &mut [u8]) -> usize
    requires { length (unquoted s.now) ≤ length out.old }
    ensures { Wrote (unquoted s.now) result out.old out.new }
{
    let mut at = 0;
    let mut rest = s;
    while 0 < rest.len() {
        let line = write_line(rest, &mut out[at..]);
        at += line.written;
        let next = line.read;
        rest = &rest[next..];
    }
    at
}

// The first line of `s` without its quotes.
fn write_line(s: &[u8], out: &mut [u8]) -> Line
    requires { length (unquoted s.now) ≤ length out.old }
    ensures { LineWritten s.now out.old out.new result.read result.written }
{
    let mut at = 0;
    for (i, &b) in s.iter().enumerate() {
        if b != DQUOTE {
            out[at] = b;
            at += 1;
        }
        if b == LF {
            return Line {
                read: i + 1,
                written: at,
            };
        }
    }
    Line {
        read: s.len(),
        written: at,
    }
}

fn last_end_length(s: &[u8]) -> usize
    ensures { result ≡ length (last_end s.now) }
{
    if ends_in_line_end(s) {
        return 0;
    }
    2
}

fn write_last_end(s: &[u8], out: &mut [u8]) -> usize
    requires { length (last_end s.now) ≤ length out.old }
    ensures { Wrote (last_end s.now) result out.old out.new }
{
    if ends_in_line_end(s) {
        return 0;
    }
    out[0] = CR;
    out[1] = LF;
    2
}

fn ends_in_line_end(s: &[u8]) -> bool
    ensures { result ≡ eqb (get_or s.now (length s.now - 1) 0) 0x0A }
{
    s.last() == Some(&LF)
}
