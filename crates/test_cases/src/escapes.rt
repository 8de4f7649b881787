// A text with escapes, and the bytes that it stands for. Assumes nothing of the text.
ghost use Rattle.std.specs.Prelude.{◌≤◌, ◌<◌, IfSome, length};

const BACKSLASH: u8 = b'\\';

const BASE: u8 = 16;

const TEN: u8 = 10;

// A byte, and how many bytes of a text stand for it.
#[derive(Clone, Copy)]
struct Step {
    used: usize,
    byte: u8,
}

// Writes the bytes that a text stands for, and answers how many; as many as there is room for where the text
// isn't in the form, which counts like a text that is too long.
pub fn put(text: &[u8], out: &mut [u8]) -> usize
    ensures { result ≤ length out.new }
{
    let mut at = 0;
    let mut i = 0;
    while i < text.len() {
        let Some(step) = next(&text[i..]) else {
            return out.len();
        };
        if out.len() <= at {
            return at;
        }
        out[at] = step.byte;
        at += 1;
        i += step.used;
    }
    at
}

// The first byte that a text stands for; nothing where it isn't in the form.
fn next(text: &[u8]) -> Option<Step>
    ensures { IfSome result (λ step. (0 < step.used) × (step.used ≤ length text.now)) }
{
    if text.len() == 0 {
        return None;
    }
    if text[0] != BACKSLASH {
        return Some(Step {
            used: 1,
            byte: text[0],
        });
    }
    if text.len() == 1 {
        return None;
    }
    if text[1] == b'x' {
        return numbered(text);
    }
    named(text[1])
}

// The byte that a name behind `\` stands for; it takes both bytes of the text.
fn named(name: u8) -> Option<Step>
    ensures { IfSome result (λ step. (0 < step.used) × (step.used ≤ 2)) }
{
    let byte = match name {
        b'r' => b'\r',
        b'n' => b'\n',
        b't' => b'\t',
        b's' => b' ',
        b'\\' => BACKSLASH,
        _ => return None,
    };
    Some(Step { used: 2, byte })
}

// The byte of the two hexadecimal digits behind `\x`.
fn numbered(text: &[u8]) -> Option<Step>
    ensures { IfSome result (λ step. (0 < step.used) × (step.used ≤ length text.now)) }
{
    if text.len() < 4 {
        return None;
    }
    let high = value(text[2])?;
    let low = value(text[3])?;
    Some(Step {
        used: 4,
        byte: BASE * high + low,
    })
}

// What a digit stands for; nothing for a byte that is no digit.
fn value(digit: u8) -> Option<u8>
    ensures { IfSome result (λ v. v < 16) }
{
    match digit {
        b'0'..=b'9' => Some(digit - b'0'),
        b'A'..=b'F' => Some(digit - b'A' + TEN),
        _ => None,
    }
}
