// The columns of a row of parents.

pub const WIDTH: usize = 2;

pub const SUPPLIER: usize = 0;

pub const PARENT: usize = 1;
