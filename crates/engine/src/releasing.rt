// Release: a unit is taken out of the day, and nothing else changes. Assumes nothing of the day or of
// the unit's number.
ghost use Rattle.std.specs.Prelude.{◌≡◌};
ghost use Rattle.engine.specs.Releasing.{Releases};
ghost use Rattle.engine.specs.promises.Answering.{release_refused};

use crate::day::Day;
use crate::refusals::{ILL_FORMED, NOT_RUNNING};
use tables::Refusal;

// The day after a release, with the answer: done, or why it is refused.
#[derive(Clone, Copy)]
pub struct Released {
    pub day: Day,
    pub answer: Result<(), Refusal>,
}

impl Day {
    // Takes a unit out of the day.
    pub fn release(self, unit: u64) -> Released
        ensures { Releases self unit result }
    {
        let hour = self.hour;
        let units = self.units;
        if self.is_formed() {
            match units.place_of(unit) {
                Some(at) => {
                    let day = Day {
                        hour,
                        units: units.without_place(at),
                    };
                    Released {
                        day,
                        answer: Ok(()),
                    }
                }
                None => self.refused(NOT_RUNNING),
            }
        } else {
            self.refused(ILL_FORMED)
        }
    }

    // The very day, with a refusal that names no file.
    fn refused(self, number: u64) -> Released
        ensures { result ≡ release_refused self number }
    {
        Released {
            day: self,
            answer: Err(Refusal::bare(number)),
        }
    }
}
