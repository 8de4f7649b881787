// Whether running units are well-formed. Assumes nothing of them.
ghost use Rattle.std.specs.Prelude.{◌≡◌};
ghost use Rattle.outcome.specs.Day.{unit_in_range};
ghost use Rattle.running.specs.promises.Forming.{units_formed};
ghost use Rattle.running.specs.View.{unit_of, units_of};

use crate::units::{Running, Units};
use cells::schedule::{SCHEDULE, UNIT};
use tables::{File, first_column, in_column};

impl Units {
    // Whether the units are well-formed: no more than there are places, in range and strictly rising.
    pub fn is_formed(self) -> bool
        ensures { result ≡ units_formed (units_of self) }
    {
        let count = self.count;
        if count > Units::MOST {
            return false;
        }
        let mut last = 0;
        for r in &self.running[..count] {
            if r.unit <= last {
                return false;
            }
            if unit_in_range(*r) {
                last = r.unit;
            } else {
                return false;
            }
        }
        true
    }
}

// A unit's numbers have the ranges of their columns in the schedules file.
fn unit_in_range(r: Running) -> bool
    ensures { result ≡ unit_in_range (unit_of r) }
{
    let first = first_column(File::Schedules);
    if in_column(first + UNIT, r.unit) {
        return in_column(first + SCHEDULE, r.schedule);
    }
    false
}
