// A schedule's kind by its letter, as a cell holds it. No `From`: that a number is meant as a letter is said by
// the name. Assumes nothing.
ghost use Rattle.std.specs.Prelude.{◌≡◌};
ghost use Rattle.tables.specs.Rows.{kind_of, letter_of};

use crate::files::Kind;

// Market-based and cost-based.
pub const M: u64 = 0x4D;

pub const C: u64 = 0x43;

pub fn kind_of(letter: u64) -> Kind
    ensures { result ≡ kind_of letter }
{
    if letter == M { Kind::M } else { Kind::C }
}

pub fn letter_of(kind: Kind) -> u64
    ensures { result ≡ letter_of kind }
{
    match kind {
        Kind::M => M,
        Kind::C => C,
    }
}
