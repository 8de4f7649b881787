// Affiliated owners: the parents of suppliers, refusals 35 and 36 over them, and supply rows with the
// heads of their suppliers' chains in their places. Rows stand in runs of cells, which their readers
// know to be within the table's ranges.
#![tactic(auto)]

mod chains;
mod grouping;
mod parents;

pub use chains::ringed;
pub use grouping::group;
pub use parents::{PLACES, lay_parents};
