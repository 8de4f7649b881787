// The columns of a schedule row, and the cell of a row in one of them.
ghost use Rattle.std.specs.Prelude.{◌≡◌, ◌+◌, ◌*◌, ◌≤◌, ◌<◌, length, get_or};
ghost use Rattle.cells.specs.promises.Views.{schedule_width};

pub const WIDTH: usize = 9;

pub const UNIT: usize = 0;

pub const SCHEDULE: usize = 1;

// As its letter.
pub const KIND: usize = 2;

pub const HOUR: usize = 3;

pub const ECOMIN: usize = 4;

pub const PRICE: usize = 5;

pub const NOLOAD: usize = 6;

pub const STARTUP: usize = 7;

pub const MINRUN: usize = 8;

pub fn cell(cells: &[u64], row: usize, column: usize) -> u64
    requires schedule_width_in_bounds { row * schedule_width + schedule_width ≤ length cells.now }
    requires column_lt_schedule_width { column < schedule_width }
    ensures { result ≡ get_or cells.now (row * schedule_width + column) 0 }
{
    cells[row * WIDTH + column]
}
