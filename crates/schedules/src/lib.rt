// What schedule rows must be to each other and to the units of supply: refusals 6 to 9, a rule each; and
// rows linked by unit, and by unit and schedule.
#![tactic(auto)]

mod linking;
mod odds;
mod rows;
mod runs;

pub use linking::link_rows;
pub use odds::schedules_at_odds;
pub use rows::{not_in_supply, unscheduled};
pub use runs::lacking;
