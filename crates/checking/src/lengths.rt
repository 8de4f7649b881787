// How long runs are to be: the cells of the longest supply, schedules, curves and parents, the points of
// the longest curves, a place for each schedule row counted from 1 and for 0, and the units of supply with a place for the one that is one too many.

pub const SUPPLY_CELLS: usize = 1280;

pub const SCHEDULE_CELLS: usize = 9216;

pub const POINT_CELLS: usize = 20480;

pub const POINTS: usize = 4096;

pub const ROW_PLACES: usize = 1025;

pub const PARENT_CELLS: usize = 128;

pub const UNITS_LENGTH: usize = 65;
