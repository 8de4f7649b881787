// The answer file, from rows of cells to text in a lent buffer: how long it is, and the writing of
// it. Rows are a lent run of cells, seven a row, with verdict and kind as their letters.
#![tactic(auto)]

mod lengths;
mod writing;

pub use lengths::length;
pub use writing::write;

// The cells of the rows of 64 units.
pub const CELLS: usize = 448;
