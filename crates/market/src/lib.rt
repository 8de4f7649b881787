// The market of one constraint and hour, from supply rows: eligible supply against the need, the
// clearing row, and the relevant supply of each party. Rows are lent as cells, which their readers
// know to be within the table's ranges.
#![tactic(auto)]

mod clearing;
mod narrowing;
mod parties;
mod parts;

pub use clearing::{clearing_row, eligible_supply, need_of};
pub use parties::{add_amounts, list_parties, party};
