// How the market stands, before any unit is looked at.
ghost use Rattle.std.specs.Prelude.{◌≤◌, ◌<◌, length};
ghost use Rattle.decision.specs.promises.Standing.{Stands, MarketCells, most_parties};
ghost use Rattle.tables.specs.promises.FlatRows.{supply_rows};

use market::{add_amounts, clearing_row, eligible_supply, list_parties, need_of};
use tables::ConstraintRow;

// A market that is not short of the need: the place of the row that clears, and how many parties there are.
#[derive(Clone, Copy)]
pub struct Cleared {
    pub row: usize,
    pub parties: usize,
}

// Finds how the market stands, nothing where it is short of the need, and lays down its parties and the
// amount of each.
pub fn stand(
    constraint: ConstraintRow,
    cells: &[u64],
    n: usize,
    parties: &mut [u64],
    amounts: &mut [u64],
) -> Option<Cleared>
    requires market_cells { MarketCells constraint n cells.now }
    requires most_parties_in_bounds { most_parties < length parties.old }
    requires most_parties_in_bounds_2 { most_parties ≤ length amounts.old }
    ensures { Stands constraint (supply_rows n cells.now) parties.new amounts.new result }
{
    let need = need_of(constraint.relief);
    let cutoff = constraint.cutoff;
    if eligible_supply(cells, n, cutoff) < need {
        return None;
    }
    let row = clearing_row(cells, n, cutoff, need);
    let count = list_parties(cells, n, parties);
    add_amounts(cells, n, cutoff, row, parties, count, amounts);
    Some(Cleared {
        row,
        parties: count,
    })
}
