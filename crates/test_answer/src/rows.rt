// The rows of the cases, seven cells a row: unit, supplier, verdict, left, schedule, kind, cost.

use cells::answer::WIDTH;
use tables::{C, M};

// The letters of the verdicts.
const U: u64 = b'U' as u64;

const P: u64 = b'P' as u64;

const F: u64 = b'F' as u64;

// The rows of document 01's example.
pub const STARRED: [u64; 28] = [
    11, 1, F, 0, 2, C, 1030000, 12, 2, F, 0, 1, M, 330000, 13, 3, F, 0, 1, C, 890000, 14, 4, F,
    5000000, 1, M, 500000,
];

// Every numeral of one digit.
pub const NARROWEST: [u64; 7] = [1, 1, U, 0, 1, M, 0];

// Every numeral as long as a cell can hold.
pub const LARGEST: [u64; 7] = [
    18446744073709551615,
    18446744073709551615,
    P,
    18446744073709551615,
    18446744073709551615,
    C,
    18446744073709551615,
];

// A verdict that is no byte.
pub const NO_LETTER: [u64; 7] = [1, 1, 256, 0, 1, M, 0];

// Every field as wide as its range permits.
pub const WIDEST: [u64; WIDTH] = [9999, 999, F, 999_999_999_999, 99, C, 999_999_999_999];
