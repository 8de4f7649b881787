// What supply rows must be to each other: refusals 5 and 6.
#![tactic(auto)]

mod rows;

pub use rows::{Counts, over_limit, supply_at_odds};
