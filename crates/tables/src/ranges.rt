// Whether a number is within the range of a column.
ghost use Rattle.std.specs.Prelude.{◌≡◌, ◌<◌};
ghost use Rattle.tables.specs.Values.{in_column};
ghost use Rattle.tables.specs.promises.Columns.{column_count, column_at};

use crate::columns::{MAXIMUM, MINIMUM};

pub fn in_column(column: usize, x: u64) -> bool
    requires { column < column_count }
    ensures { result ≡ in_column (column_at column) x }
{
    if x < MINIMUM[column] {
        return false;
    }
    x <= MAXIMUM[column]
}
