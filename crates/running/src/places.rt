// Running units by their places: where a unit is, and the units without it. Assumes that no more are
// counted than there are places.
ghost use Rattle.std.specs.Prelude.{◌≡◌, ◌≤◌, ◌<◌};
ghost use Rattle.outcome.specs.Day.{most_running};
ghost use Rattle.running.specs.promises.Places.{place_in, removed};
ghost use Rattle.running.specs.View.{units_of};

use crate::units::Units;

impl Units {
    // The place of the unit among the running ones, if it is among them.
    pub fn place_of(self, unit: u64) -> Option<usize>
        requires { self.count ≤ most_running }
        ensures { result ≡ place_in unit (units_of self) }
    {
        for (i, r) in self.running[..self.count].iter().enumerate() {
            if r.unit == unit {
                return Some(i);
            }
        }
        None
    }

    // The units without the one at a place: those behind it move one place forward.
    pub fn without_place(self, at: usize) -> Units
        requires count_le_most_running { self.count ≤ most_running }
        requires at_lt_count { at < self.count }
        ensures { units_of result ≡ removed at (units_of self) }
    {
        let count = self.count - 1;
        let mut running = self.running;
        running.copy_within(at + 1..self.count, at);
        Units { count, running }
    }
}
