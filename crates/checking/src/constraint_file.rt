// The constraint alone: its one row by value, or the first of its refusals. Assumes nothing of the
// bytes.
ghost use Rattle.std.specs.Prelude.{◌≡◌};
ghost use Rattle.checking.specs.promises.Alone.{constraint_checked};

use tables::{ConstraintRow, File, Refusal};

// The columns of the row.
const WIDTH: usize = 3;

const HOUR: usize = 0;

const RELIEF: usize = 1;

const CUTOFF: usize = 2;

pub fn read_constraint(bytes: &[u8]) -> Result<ConstraintRow, Refusal>
    ensures { result ≡ constraint_checked bytes.now }
{
    let mut cells = [0u64; WIDTH];
    onepass::read(File::Constraint, bytes, &mut cells)?;
    Ok(ConstraintRow {
        hour: cells[HOUR],
        relief: cells[RELIEF],
        cutoff: cells[CUTOFF],
    })
}
