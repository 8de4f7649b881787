// Schedules by their kind, and which kinds are eligible for a unit. The day has a unit running on a
// schedule of a kind, or not running.
ghost use Rattle.std.specs.Prelude.{◌≡◌};
ghost use Rattle.choice.specs.Schedules.{on_cost, admits as schedules_admits, eligible_kinds};

use tables::Kind;

// Schedules by their kind.
#[derive(Clone, Copy)]
pub enum Kinds {
    All,
    OnlyM,
    OnlyC,
}

// The kinds of schedule that are eligible.
pub fn eligible_kinds(day: Option<Kind>, exposed: bool, has_m: bool) -> Kinds
    ensures { result ≡ eligible_kinds day exposed has_m }
{
    if on_cost(day) {
        return Kinds::OnlyC;
    }
    if exposed {
        return Kinds::All;
    }
    if has_m { Kinds::OnlyM } else { Kinds::OnlyC }
}

fn on_cost(day: Option<Kind>) -> bool
    ensures { result ≡ on_cost day }
{
    match day {
        Some(kind) => kind == Kind::C,
        None => false,
    }
}

// Whether a schedule of this kind is among these kinds.
pub fn admits(kinds: Kinds, kind: Kind) -> bool
    ensures { result ≡ schedules_admits kinds kind }
{
    match kinds {
        Kinds::All => true,
        Kinds::OnlyM => kind == Kind::M,
        Kinds::OnlyC => kind == Kind::C,
    }
}
