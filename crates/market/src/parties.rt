// The party of a supply row, the parties of the rows, and the relevant supply of each.
ghost use Rattle.std.specs.Prelude.{◌≡◌, ◌++◌, map, ◌<◌, ◌≤◌, length, take, drop};
ghost use Rattle.base.specs.promises.Writing.{Wrote};
ghost use Rattle.cells.specs.promises.Views.{supply_at};
ghost use Rattle.offers.specs.promises.Ranges.{SupplyRowAt, SupplyCells};
ghost use Rattle.market.specs.Parties.{party as parties_party, parties as parties_parties, amount_of};
ghost use Rattle.tables.specs.promises.FlatRows.{supply_rows};

use crate::parts::{is_relevant_of, supply_of};
use numbers::insert;
use offers::supplier;

// The number under which the row's supply counts in the test.
pub fn party(cells: &[u64], row: usize) -> u64
    requires { SupplyRowAt cells.now row }
    ensures { result ≡ parties_party (supply_at cells.now row) }
{
    supplier(cells, row)
}

// Writes the different parties of the first `n` rows, by rising number, to the start of `out`, which
// has room for one more, and answers how many there are.
pub fn list_parties(cells: &[u64], n: usize, out: &mut [u64]) -> usize
    requires supply_cells { SupplyCells n cells.now }
    requires cells_in_bounds { length (parties_parties (supply_rows n cells.now)) < length out.old }
    ensures { Wrote (parties_parties (supply_rows n cells.now)) result out.old out.new }
{
    let mut count = 0;
    for row in 0..n {
        let k = party(cells, row);
        count = insert(out, count, k);
    }
    count
}

// Writes the relevant supply of each of the first `count` parties to the start of `out`, where the
// row at `clearing` clears.
pub fn add_amounts(
    cells: &[u64],
    n: usize,
    cutoff: u64,
    clearing: usize,
    parties: &[u64],
    count: usize,
    out: &mut [u64],
)
    requires supply_cells { SupplyCells n cells.now }
    requires clearing_lt_n { clearing < n }
    requires count_in_bounds { count ≤ length parties.now }
    requires count_in_bounds_2 { count ≤ length out.old }
    ensures { out.new ≡ map (amount_of cutoff (supply_at cells.now clearing) (supply_rows n cells.now)) (take count parties.now) ++ drop count out.old }
{
    for i in 0..count {
        let party = parties[i];
        out[i] = supply_of(
            cells,
            n,
            |row| is_relevant_of(cells, row, clearing, cutoff, party),
        );
    }
}
