// One field as a part of a file that begins where the field begins, read to its cell in one go. Nothing
// is found where a step gives up.
ghost use Rattle.std.specs.Prelude.{◌≡◌, ◌+◌, ◌^◌, ◌<◌, ◌≤◌, true, length, ◌==◌, slice_index, IfSome};
ghost use Rattle.tables.specs.declared.columns.Form.TheVariants.{Numeral as form_numeral, Signed as form_signed, Letter as form_letter};
ghost use Rattle.tables.specs.Values.{in_form};
ghost use Rattle.onepass.specs.promises.Walk.{Run, ZeroFound, TextFound, FieldFound, Closed};
ghost use Rattle.base.specs.promises.Counting.{one};

use tables::Form;

const BASE: u64 = 10;

const ZERO: u8 = b'0';

const ONE: u8 = b'1';

const LARGEST_DIGIT: u8 = 9;

// The digits of the largest number that a column may have.
const MOST_DIGITS: usize = 9;

const MINUS: u8 = b'-';

pub const DQUOTE: u8 = 0x22;

const LETTER_A: u8 = b'A';

const LETTER_Z: u8 = b'Z';

// What was found at a place: where it ends, and its cell. The end doesn't hang on the cell's value, so
// that the next field need not wait for it.
#[derive(Clone, Copy)]
pub struct Found {
    pub next: usize,
    pub cell: u64,
}

// The field at the start of `s`, in quotes or not.
pub fn field(form: Form, minimum: u64, maximum: u64, s: &[u8]) -> Option<Found>
    requires { minimum + maximum < 2 ^ 60 }
    ensures { IfSome result (FieldFound (in_form form minimum maximum) s.now) }
{
    if s.len() == 0 {
        return None;
    }
    if begins_numeral(form, s[0]) {
        return numeral(s, 0, minimum, maximum);
    }
    let at = quote_length(s[0]);
    let inside = text(form, minimum, maximum, s, at)?;
    if at == 0 {
        return Some(inside);
    }
    closed(s, inside)
}

// Whether a field that begins with the byte can only be a numeral out of quotes, as most are.
fn begins_numeral(form: Form, b: u8) -> bool
    ensures { result ≡ true → form ≡ form_numeral }
{
    match form {
        Form::Numeral => b != DQUOTE,
        Form::Signed => false,
        Form::Letter => false,
    }
}

// 1 where a field that begins with the byte is in quotes, else 0.
fn quote_length(b: u8) -> usize
    ensures { result ≡ one (b == 0x22) }
{
    usize::from(b == DQUOTE)
}

// Behind the quote at the end of a text.
fn closed(s: &[u8], text: Found) -> Option<Found>
    ensures { IfSome result (Closed s.now text) }
{
    let end = text.next;
    if s.len() <= end {
        return None;
    }
    if s[end] != DQUOTE {
        return None;
    }
    Some(Found {
        next: end + 1,
        cell: text.cell,
    })
}

// The text at a place, by its column's form.
fn text(form: Form, minimum: u64, maximum: u64, s: &[u8], at: usize) -> Option<Found>
    requires { minimum + maximum < 2 ^ 60 }
    ensures { IfSome result (TextFound (in_form form minimum maximum) s.now at) }
{
    match form {
        Form::Numeral => numeral(s, at, minimum, maximum),
        Form::Signed => signed(s, at, minimum, maximum),
        Form::Letter => letter(s, at, minimum, maximum),
    }
}

// A numeral from least to most. Digits behind a zero are left to the separator that is looked for. A byte less
// ONE, wrapped, is below the largest digit just where it is a digit and no zero.
fn numeral(s: &[u8], at: usize, least: u64, most: u64) -> Option<Found>
    ensures text_found { IfSome result (TextFound (in_form form_numeral least most) s.now at) }
    ensures cell_le_most { IfSome result (λ found. found.cell ≤ most) }
{
    if s.len() <= at {
        return None;
    }
    let above_one = std::num::wrapping_sub_u8(s[at], ONE);
    if LARGEST_DIGIT <= above_one {
        return zero(s, at, least);
    }
    let run = digits(s, at, above_one as u64 + 1);
    if run.cell < least {
        return None;
    }
    if most < run.cell {
        return None;
    }
    Some(run)
}

// `0` at a place, where it is not below the least number.
fn zero(s: &[u8], at: usize, least: u64) -> Option<Found>
    requires { at < length s.now }
    ensures { IfSome result (ZeroFound s.now at least) }
{
    if s[at] != ZERO {
        return None;
    }
    if 0 < least {
        return None;
    }
    Some(Found {
        next: at + 1,
        cell: 0,
    })
}

// A numeral, or `-` and a nonzero numeral, in excess of the minimum's size.
fn signed(s: &[u8], at: usize, minimum: u64, maximum: u64) -> Option<Found>
    requires { minimum + maximum < 2 ^ 60 }
    ensures { IfSome result (TextFound (in_form form_signed minimum maximum) s.now at) }
{
    if s.len() <= at {
        return None;
    }
    if s[at] == MINUS {
        let below = numeral(s, at + 1, 1, minimum)?;
        return Some(Found {
            next: below.next,
            cell: minimum - below.cell,
        });
    }
    let above = numeral(s, at, 0, maximum)?;
    Some(Found {
        next: above.next,
        cell: minimum + above.cell,
    })
}

// One of two capital letters, as its byte.
fn letter(s: &[u8], at: usize, a: u64, b: u64) -> Option<Found>
    ensures { IfSome result (TextFound (in_form form_letter a b) s.now at) }
{
    if s.len() <= at {
        return None;
    }
    let byte = s[at];
    if byte < LETTER_A {
        return None;
    }
    if LETTER_Z < byte {
        return None;
    }
    let cell = byte as u64;
    let found = Found {
        next: at + 1,
        cell: cell,
    };
    if cell == a {
        return Some(found);
    }
    if cell == b {
        return Some(found);
    }
    None
}

// The digits from a place on, of which the first is given; one that no column has room for is left to the
// separator that is looked for. A byte less ZERO, wrapped, is at most the largest digit just where it is one.
fn digits(s: &[u8], at: usize, first: u64) -> Found
    requires at_in_bounds { at < length s.now }
    requires at_value { slice_index s.now at ≡ first + 0x30 }
    requires first_bound { first ≤ 9 }
    ensures run { Run s.now at result }
    ensures at_lt_next { at < result.next }
{
    let end = at + (s.len() - at).min(MOST_DIGITS);
    let mut n = first;
    for i in at + 1..end {
        let digit = std::num::wrapping_sub_u8(s[i], ZERO);
        if LARGEST_DIGIT < digit {
            return Found { next: i, cell: n };
        }
        n = BASE * n + digit as u64;
    }
    Found { next: end, cell: n }
}
