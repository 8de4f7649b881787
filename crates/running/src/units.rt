// The units that a day has running, by value. Assumes nothing; whether they are well-formed is asked
// of them.
ghost use Rattle.std.specs.Prelude.{◌≡◌, []};
ghost use Rattle.outcome.specs.Day.{most_running};
ghost use Rattle.running.specs.View.{units_of};

use tables::Kind;

// A running unit, with the number and kind of the schedule it runs on.
#[derive(Clone, Copy)]
pub struct Running {
    pub unit: u64,
    pub schedule: u64,
    pub kind: Kind,
}

// The running units are the first `count` of `running`: a day goes by value and takes no heap, so there is no
// `Vec`.
#[derive(Clone, Copy)]
pub struct Units {
    pub count: usize,
    pub running: [Running; Units::MOST],
}

impl Units {
    // The most units that a day has running.
    pub const MOST: usize = 64;

    // Nothing running.
    pub fn none() -> Units
        ensures result_value { units_of result ≡ [] }
        ensures most { Units.MOST ≡ most_running }
    {
        let unused = Running {
            unit: 0,
            schedule: 0,
            kind: Kind::M,
        };
        let running = [unused; Units::MOST];
        Units { count: 0, running }
    }
}
