// The units that a day has running: what is asked of them and what is done to them, without the
// day's hour.
#![tactic(auto)]

mod asking;
mod committing;
mod forming;
mod places;
mod units;

pub use units::{Running, Units};
