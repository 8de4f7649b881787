// What supply rows must be to each other: not too many units and suppliers, and rows of one unit
// that share supplier and dfax. Rows stand one behind the other in a flat run of cells. Records
// count from 1. Assumes nothing of the cells.
ghost use Rattle.std.specs.Prelude.{◌≡◌, ◌+◌, ◌*◌, ◌≤◌, ◌<◌, length};
ghost use Rattle.base.specs.Search.{any};
ghost use Rattle.links.specs.promises.Links.{last_same, Unlinked, unit_keys};
ghost use Rattle.supply.specs.Supply.{most_units, most_suppliers, supply_odds, supply_at_odds};
ghost use Rattle.cells.specs.promises.Views.{supply_width, supply_at};
ghost use Rattle.supply.specs.promises.Rows.{Counted, too_many, supply_before, AgreeBefore, supply_key};
ghost use Rattle.tables.specs.promises.FlatRows.{supply_rows};

use cells::supply::{DFAX, SUPPLIER, UNIT, WIDTH};
use links::unit_key;
use numbers::insert;

const UNITS: usize = 64;

const SUPPLIERS: usize = 32;

// How many keys the units have.
const KEYS: usize = 1024;

// The record that brings a unit or a supplier too many, if one does; and how many units and
// suppliers there are.
#[derive(Clone, Copy)]
pub struct Counts {
    pub place: Option<usize>,
    pub units: usize,
    pub suppliers: usize,
}

// Counts the units and the suppliers of n rows, as far as the first record that brings one too many,
// and lays them down by rising number.
pub fn over_limit(cells: &[u64], n: usize, units: &mut [u64], suppliers: &mut [u64]) -> Counts
    requires { (n * supply_width ≤ length cells.now) × (most_units < length units.old) × (most_suppliers < length suppliers.old) }
    ensures { Counted (supply_rows n cells.now) units.new suppliers.new result }
{
    let mut unit_count = 0;
    let mut supplier_count = 0;
    for k in 0..n {
        let unit = cells[k * WIDTH + UNIT];
        let supplier = cells[k * WIDTH + SUPPLIER];
        unit_count = insert(units, unit_count, unit);
        supplier_count = insert(suppliers, supplier_count, supplier);
        if too_many(unit_count, supplier_count) {
            return Counts {
                place: Some(k + 1),
                units: unit_count,
                suppliers: supplier_count,
            };
        }
    }
    Counts {
        place: None,
        units: unit_count,
        suppliers: supplier_count,
    }
}

fn too_many(units: usize, suppliers: usize) -> bool
    ensures { result ≡ too_many units suppliers }
{
    if UNITS < units {
        return true;
    }
    SUPPLIERS < suppliers
}

// The first record that is at odds with an earlier one.
pub fn supply_at_odds(cells: &[u64], n: usize) -> Option<usize>
    requires { n * supply_width ≤ length cells.now }
    ensures { result ≡ supply_at_odds (supply_rows n cells.now) }
{
    let mut last = [0usize; KEYS];
    first_at_odds(cells, n, &mut last)
}

// The same, with a lent run in which each key has one more than the place of its last row so far: fixed
// memory, in which an `Option` would take twice the room.
fn first_at_odds(cells: &[u64], n: usize, last: &mut [usize]) -> Option<usize>
    requires supply_width_in_bounds { n * supply_width ≤ length cells.now }
    requires unit_keys_in_bounds { unit_keys ≤ length last.old }
    requires unlinked { Unlinked last.old }
    ensures { result ≡ supply_at_odds (supply_rows n cells.now) }
{
    for k in 0..n {
        let key = unit_key(cells[k * WIDTH + UNIT]);
        if at_odds_with_last(cells, k, last[key]) {
            return Some(k + 1);
        }
        last[key] = k + 1;
    }
    None
}

// Whether the row at k is at odds with one before it, where none of those is at odds with an
// earlier one: rows of its unit agree, so the last of them will do. Left is the last row of its key,
// counted from 1; where that is of another unit, all are compared.
fn at_odds_with_last(cells: &[u64], k: usize, left: usize) -> bool
    requires supply_width_in_bounds { k * supply_width + supply_width ≤ length cells.now }
    requires left_le_k { left ≤ k }
    requires left_value { left ≡ last_same (supply_key cells.now) (supply_key cells.now k) k }
    requires agree_before { AgreeBefore cells.now k }
    ensures { result ≡ any (supply_odds (supply_at cells.now k)) (supply_before cells.now k) }
{
    if left == 0 {
        return false;
    }
    let j = left - 1;
    if cells[k * WIDTH + UNIT] != cells[j * WIDTH + UNIT] {
        return at_odds_with_earlier(cells, k);
    }
    at_odds(cells, k, j)
}

// Whether the row at k is at odds with one before it.
fn at_odds_with_earlier(cells: &[u64], k: usize) -> bool
    requires { k * supply_width + supply_width ≤ length cells.now }
    ensures { result ≡ any (supply_odds (supply_at cells.now k)) (supply_before cells.now k) }
{
    (0..k).any(|early| at_odds(cells, k, early))
}

// Whether two rows are of one unit and differ in supplier or dfax.
fn at_odds(cells: &[u64], late: usize, early: usize) -> bool
    requires { (late * supply_width + supply_width ≤ length cells.now) × (early * supply_width + supply_width ≤ length cells.now) }
    ensures { result ≡ supply_odds (supply_at cells.now late) (supply_at cells.now early) }
{
    let a = late * WIDTH;
    let b = early * WIDTH;
    if cells[a + UNIT] != cells[b + UNIT] {
        return false;
    }
    if cells[a + SUPPLIER] != cells[b + SUPPLIER] {
        return true;
    }
    cells[a + DFAX] != cells[b + DFAX]
}
