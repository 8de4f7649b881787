// What is asked of a day: whether it is well-formed, and whether an hour comes too early for it.
// Assumes nothing of it.
ghost use Rattle.std.specs.Prelude.{◌≡◌};
ghost use Rattle.outcome.specs.Day.{hour_in_range, day_formed, earlier};
ghost use Rattle.engine.specs.View.{view_of};

use crate::day::Day;
use tables::{File, first_column, in_column};

impl Day {
    // Whether the day is well-formed.
    pub(crate) fn is_formed(self) -> bool
        ensures { result ≡ day_formed (view_of self) }
    {
        let hour = self.hour;
        let units = self.units;
        if hour_in_range(hour) {
            units.is_formed()
        } else {
            false
        }
    }

    // Whether an hour is earlier than that of the last accepted study.
    pub(crate) fn is_earlier(self, hour: u64) -> bool
        ensures { result ≡ earlier hour (view_of self).hour }
    {
        let last = self.hour;
        match last {
            None => false,
            Some(h) => hour < h,
        }
    }
}

// An hour has the range of its column in the constraint file.
fn hour_in_range(hour: Option<u64>) -> bool
    ensures { result ≡ hour_in_range hour }
{
    match hour {
        None => true,
        Some(h) => in_column(first_column(File::Constraint), h),
    }
}
