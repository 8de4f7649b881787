// The kind of a schedule row.
ghost use Rattle.std.specs.Prelude.{◌≡◌, ◌+◌, ◌*◌, ◌≤◌, length};
ghost use Rattle.tables.specs.Rows.{kind_of};
ghost use Rattle.cells.specs.promises.Views.{schedule_at, schedule_width};

use cells::schedule::{KIND, cell};
use tables::{Kind, kind_of};

// The kind of the row at `i`.
pub fn kind(cells: &[u64], i: usize) -> Kind
    requires { i * schedule_width + schedule_width ≤ length cells.now }
    ensures { result ≡ kind_of (schedule_at cells.now i).kind }
{
    kind_of(cell(cells, i, KIND))
}
