// What one supply row offers to a constraint: its capped offer, its effective supply and cost, and
// whether it is eligible and relevant. Rows are lent as cells, which their readers know to be within
// the table's ranges.
#![tactic(auto)]

mod offer;
mod relevant;
mod rows;

pub use offer::capped;
pub use relevant::is_relevant;
pub use rows::{cost_beside, effective_supply, is_eligible, supplier};
