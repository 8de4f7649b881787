// What a study asks of the running units: on which kind a unit runs, and how many would run. Assumes
// that no more are counted than there are places.
ghost use Rattle.std.specs.Prelude.{◌≡◌, ◌≤◌};
ghost use Rattle.outcome.specs.Day.{most_running, kind_running, would_run};
ghost use Rattle.running.specs.promises.Asking.{newcomers};
ghost use Rattle.running.specs.View.{units_of};

use crate::units::Units;
use tables::Kind;

impl Units {
    // On which kind a unit runs, if it does.
    pub fn day_kind(self, unit: u64) -> Option<Kind>
        requires { self.count ≤ most_running }
        ensures { result ≡ kind_running unit (units_of self) }
    {
        let at = self.place_of(unit)?;
        let r = self.running[at];
        Some(r.kind)
    }

    // How many units would run with these.
    pub fn would_run(self, units: &[u64]) -> usize
        requires { self.count ≤ most_running }
        ensures { result ≡ would_run units.now (units_of self) }
    {
        let mut total = self.count;
        for unit in units {
            total += self.newcomer(*unit);
        }
        total
    }

    // One for a unit that isn't running yet.
    fn newcomer(self, unit: u64) -> usize
        requires { self.count ≤ most_running }
        ensures { result ≡ newcomers (units_of self) unit }
    {
        match self.place_of(unit) {
            Some(_) => 0,
            None => 1,
        }
    }
}
