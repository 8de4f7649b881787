// Offer curves: each point's schedule row, refusals 32, 33 and 34 over points, and schedule rows at the
// prices of their curves. Points and rows stand in runs of cells, which their readers know to be within
// the table's ranges.
#![tactic(auto)]

mod ending;
mod keys;
mod ordering;
mod placing;
mod pricing;

pub use ending::ends_low;
pub use ordering::disordered;
pub use placing::place_points;
pub use pricing::price_rows;
