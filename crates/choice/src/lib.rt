// Which of a unit's schedules it runs on: what an hour and a run of a schedule cost, which schedules are
// eligible, and which of them is chosen. The rows of a study are a lent run of cells, and those of the
// unit, or of a schedule, are found along links, from the last to the first.
#![tactic(auto)]

mod choices;
mod choosing;
mod costs;
mod kinds;
mod prices;
mod rows;
mod scheduled;

pub use choices::Choice;
pub use choosing::{choose, has_any};
pub use kinds::Kinds;
pub use scheduled::Schedules;
