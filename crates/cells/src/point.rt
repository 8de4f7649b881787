// The columns of a point of a curve, and the cell of a point in one of them.
ghost use Rattle.std.specs.Prelude.{◌≡◌, ◌+◌, ◌*◌, ◌≤◌, ◌<◌, length, get_or};
ghost use Rattle.cells.specs.promises.Views.{point_width};

pub const WIDTH: usize = 5;

pub const UNIT: usize = 0;

pub const SCHEDULE: usize = 1;

pub const HOUR: usize = 2;

pub const MW: usize = 3;

pub const PRICE: usize = 4;

pub fn cell(cells: &[u64], row: usize, column: usize) -> u64
    requires point_width_in_bounds { row * point_width + point_width ≤ length cells.now }
    requires column_lt_point_width { column < point_width }
    ensures { result ≡ get_or cells.now (row * point_width + column) 0 }
{
    cells[row * WIDTH + column]
}
