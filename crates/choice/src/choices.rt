// The better of two schedules: the one of lower cost, and at equal cost the one of smaller number.
ghost use Rattle.std.specs.Prelude.{◌≡◌};
ghost use Rattle.choice.specs.Choosing.{better as choosing_better, kept as choosing_kept};

use tables::Kind;

// A schedule of a unit, with what it costs in tenths of a cent.
#[derive(Clone, Copy)]
pub struct Choice {
    pub schedule: u64,
    pub kind: Kind,
    pub cost: u64,
}

// The better of an earlier choice and one schedule more.
pub fn kept(best: Option<Choice>, next: Choice) -> Option<Choice>
    ensures { result ≡ choosing_kept best next }
{
    match best {
        None => Some(next),
        Some(earlier) => {
            if better(next, earlier) {
                Some(next)
            } else {
                Some(earlier)
            }
        }
    }
}

// Whether a schedule is to be taken rather than another: by the lower cost, else by the number.
fn better(a: Choice, b: Choice) -> bool
    ensures { result ≡ choosing_better a b }
{
    if a.cost < b.cost {
        return true;
    }
    if a.cost == b.cost {
        return a.schedule < b.schedule;
    }
    false
}
