// The columns of a supply row.

pub const WIDTH: usize = 5;

pub const UNIT: usize = 0;

pub const SUPPLIER: usize = 1;

pub const MW: usize = 2;

pub const COST: usize = 3;

// In excess of 10000, so that -10000 is 0.
pub const DFAX: usize = 4;
