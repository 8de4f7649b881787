// The day: the hour of the last accepted study and the running units, by value. It goes into a call
// and comes back with the answer. Assumes nothing; whether a day is well-formed is asked of it.
ghost use Rattle.std.specs.Prelude.{◌≡◌};
ghost use Rattle.outcome.specs.Day.{fresh_day, most_running};
ghost use Rattle.engine.specs.View.{view_of};

use running::Units;

// The hour is that of the last accepted study, none in a fresh day.
#[derive(Clone, Copy)]
pub struct Day {
    pub hour: Option<u64>,
    pub units: Units,
}

impl Day {
    // The most units that a day has running.
    pub const UNITS: usize = Units::MOST;

    // A day before its first study, with nothing running.
    pub fn fresh() -> Day
        ensures result_value { view_of result ≡ fresh_day }
        ensures most { Day.UNITS ≡ most_running }
    {
        Day {
            hour: None,
            units: Units::none(),
        }
    }
}
