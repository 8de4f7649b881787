// What a study decides: how the market stands, each unit's test and each unit's choice, laid down
// as the rows of the answer. Nothing is written to a file and no day is changed here. Files come as
// runs of cells, which their readers know to be within the table's ranges.
#![tactic(auto)]

mod choosing;
mod deciding;
mod naming;
mod standing;
mod testing;
mod units;

pub use deciding::{NoCostSchedule, decide};
pub use naming::{list_suppliers, name_suppliers};
