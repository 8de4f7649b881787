// Numerals: digits with no sign and no leading zero, except `0` itself. A numeral may be of any
// length; one above the maximum is refused before anything could wrap.
#![tactic(auto)]

ghost use Rattle.std.specs.Prelude.{◌≤◌, ◌≡◌, length};
ghost use Rattle.base.specs.promises.Writing.{Wrote};
ghost use Rattle.numeral.specs.Numeral.{digits, leading_zero, number, within};

const BASE: u64 = 10;

const ZERO: u8 = b'0';

const NINE: u8 = b'9';

// The number from least to most that s is the numeral of, if there is one.
pub fn read(s: &[u8], least: u64, most: u64) -> Option<u64>
    ensures { result ≡ within least most (number s.now) }
{
    if s.len() == 0 {
        return None;
    }
    if zero_leads(s) {
        return None;
    }
    let tenth = most / BASE;
    let mut n: u64 = 0;
    for &b in s {
        if b < ZERO {
            return None;
        }
        if NINE < b {
            return None;
        }
        // A number above the maximum only grows with further digits.
        if tenth < n {
            return None;
        }
        let digit = b as u64 - ZERO as u64;
        if most - BASE * n < digit {
            return None;
        }
        n = BASE * n + digit;
    }
    if n < least {
        return None;
    }
    Some(n)
}

fn zero_leads(s: &[u8]) -> bool
    ensures { result ≡ leading_zero s.now }
{
    if s.len() < 2 {
        return false;
    }
    s[0] == ZERO
}

// How many digits the numeral of n has.
pub fn digit_count(n: u64) -> usize
    ensures { result ≡ length (digits n) }
{
    let mut count: usize = 1;
    let mut left = n;
    while BASE <= left {
        left /= BASE;
        count += 1;
    }
    count
}

// Puts the numeral of n at the start of out, and answers its length.
pub fn write(n: u64, out: &mut [u8]) -> usize
    requires { length (digits n) ≤ length out.old }
    ensures { Wrote (digits n) result out.old out.new }
{
    let count = digit_count(n);
    let mut at = count;
    let mut rest = n;
    while BASE <= rest {
        at -= 1;
        out[at] = ZERO + (rest % BASE) as u8;
        rest /= BASE;
    }
    out[0] = ZERO + rest as u8;
    count
}
