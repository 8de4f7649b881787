// Rows that stand in a run of cells, one behind the other: the columns of each kind of row by name, and
// the cell of a row in a column. Each kind of row has its own `cell`, since one over widths would be asked for
// by its width at each call. And how many rows and units a study has, by value.
#![tactic(auto)]

pub mod answer;
pub mod parent;
pub mod point;
pub mod schedule;
mod sizes;
pub mod supply;

pub use sizes::Sizes;
