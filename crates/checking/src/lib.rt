// The files of a study: each is read alone as far as refusal 6, constraint and supply together, and
// schedules beside them; parents turn supply into groups. Assumes nothing of the bytes.
#![tactic(auto)]

mod answers;
mod constraint_file;
mod curves_file;
mod lengths;
mod market;
mod parents_file;
mod refusals;
mod rules;
mod schedules_file;
mod supply_file;

pub use constraint_file::read_constraint;
pub use lengths::{SCHEDULE_CELLS, SUPPLY_CELLS, UNITS_LENGTH};
pub use market::{Market, check_market};
pub use parents_file::check_parents;
pub use schedules_file::{check_schedules, read_schedules};
pub use supply_file::{Supplied, read_supply};
