// A unit's choice among the schedules, and the day's kind for it.
ghost use Rattle.std.specs.Prelude.{◌≡◌};
ghost use Rattle.schedules.specs.Schedules.{own};
ghost use Rattle.choice.specs.Choosing.{choice};
ghost use Rattle.outcome.specs.Decision.{chosen_or};
ghost use Rattle.decision.specs.promises.Choosing.{lacks_cost_on};

use crate::testing::UnitTest;
use choice::{Choice, Kinds, Schedules};
use tables::Kind;

// Whether the unit runs on cost and has no C schedule.
pub fn lacks_cost(schedules: &Schedules<'_>, hour: u64, unit: u64, day: Option<Kind>) -> bool
    ensures { result ≡ lacks_cost_on day hour (own unit schedules.now) }
{
    match day {
        None => false,
        Some(kind) => match kind {
            Kind::M => false,
            Kind::C => !schedules.has_any(unit, hour, Kinds::OnlyC),
        },
    }
}

// The schedule chosen for a unit that has been tested.
pub fn choose_for(schedules: &Schedules<'_>, hour: u64, test: UnitTest, day: Option<Kind>) -> Choice
    ensures { result ≡ chosen_or (choice day test.exposed hour (own test.unit schedules.now)) }
{
    match schedules.choose(test.unit, hour, test.exposed, day) {
        Some(choice) => choice,
        None => Choice {
            schedule: 0,
            kind: Kind::C,
            cost: 0,
        },
    }
}
