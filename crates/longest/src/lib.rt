// The longest answer: how many bytes a buffer must have so that no study finds it too short. Assumes
// nothing.
#![tactic(auto)]

ghost use Rattle.std.specs.Prelude.{◌≡◌};
ghost use Rattle.longest.specs.Longest.{longest};

// How many bytes it has, for the length of a buffer.
pub const LONGEST: usize = 2799;

// The same, by the definition.
pub fn longest_answer() -> usize
    ensures { result ≡ longest }
{
    LONGEST
}
