// The header at the start of a file, as one text: all names out of quotes, or all in quotes. A place is
// answered only where what is looked for is there.
ghost use Rattle.std.specs.Prelude.{[], ◌∷◌, IfSome};
ghost use Rattle.onepass.specs.promises.Walk.{HeaderFound, Begins, TextAt, quoted_byte, quoted_text};

use crate::fields::DQUOTE;
use crate::rows::{COMMA, CR};
use tables::{
    CONSTRAINT_HEADER, CURVES_HEADER, File, PARENTS_HEADER, SCHEDULES_HEADER, SUPPLY_HEADER,
};

// Where the rows begin, behind the header's CR LF.
pub fn header_end(file: File, s: &[u8]) -> Option<usize>
    ensures { IfSome result (HeaderFound file s.now) }
{
    match file {
        File::Constraint => either_end(s, &CONSTRAINT_HEADER),
        File::Supply => either_end(s, &SUPPLY_HEADER),
        File::Schedules => either_end(s, &SCHEDULES_HEADER),
        File::Curves => either_end(s, &CURVES_HEADER),
        File::Parents => either_end(s, &PARENTS_HEADER),
    }
}

// Where a header at the start of `s` ends, in quotes or not.
fn either_end(s: &[u8], header: &[u8]) -> Option<usize>
    ensures { IfSome result (Begins s.now header.now (quoted_text header.now)) }
{
    if s.starts_with(header) {
        return Some(header.len());
    }
    if s.starts_with(&[DQUOTE]) {
        return quoted_end(s, header);
    }
    None
}

// Where a header in quotes ends, behind the first quote.
fn quoted_end(s: &[u8], header: &[u8]) -> Option<usize>
    requires { TextAt s.now 0 (0x22 ∷ []) 1 }
    ensures { IfSome result (TextAt s.now 0 (quoted_text header.now)) }
{
    let mut at = 1;
    for &b in header {
        at = quoted_byte_end(s, at, b)?;
    }
    Some(at)
}

// Behind what a byte of a header is where its names are in quotes.
fn quoted_byte_end(s: &[u8], at: usize, b: u8) -> Option<usize>
    ensures { IfSome result (TextAt s.now at (quoted_byte b)) }
{
    if b == COMMA {
        return text_end(s, at, b"\",\"");
    }
    if b == CR {
        return text_end(s, at, b"\"\r");
    }
    text_end(s, at, &[b])
}

// Where a text at a place ends.
fn text_end(s: &[u8], at: usize, text: &[u8]) -> Option<usize>
    ensures { IfSome result (TextAt s.now at text.now) }
{
    if s.len() < at {
        return None;
    }
    if s[at..].starts_with(text) {
        return Some(at + text.len());
    }
    None
}
