// Curves: the first of its refusals beside the rows of schedules, or those rows at the prices of their
// curves, in place. Its points take more room than all other cells together. Assumes a file of some bytes:
// one of none counts as its header alone, which its callers know without these functions.
ghost use Rattle.std.specs.Prelude.{◌≡◌, length};
ghost use Rattle.checking.specs.promises.Curves.{CurvesChecked, RowsPricedBy, CurvesHeld};
ghost use Rattle.curves.specs.promises.Placing.{PointCells, RowCells, Placed};

use crate::lengths::{POINT_CELLS, POINTS, ROW_PLACES};
use crate::refusals::{DISORDERED, ENDS_LOW, STRAY_POINT, refused};
use curves::{disordered, ends_low, place_points, price_rows};
use tables::{File, Refusal};

// Reads curves, and puts the prices at their ecomin into the first `n` rows of schedules, which are of these
// units.
pub fn check_curves(
    curves: &[u8],
    cells: &mut [u64],
    n: usize,
    units: &[u64],
) -> Result<usize, Refusal>
    requires fact { length curves.now ≡ 0 → ⊥ }
    requires row_cells { RowCells n cells.old }
    ensures { CurvesChecked curves.now n cells.old cells.new result }
{
    let mut points = [0u64; POINT_CELLS];
    let count = onepass::read(File::Curves, curves, &mut points)?;
    hold_points(&points, count, cells, n, units)
}

// Holds points to 32, and then to the rest.
fn hold_points(
    points: &[u64],
    m: usize,
    cells: &mut [u64],
    n: usize,
    units: &[u64],
) -> Result<usize, Refusal>
    requires point_cells { PointCells m points.now }
    requires row_cells { RowCells n cells.old }
    ensures { RowsPricedBy m points.now n cells.old cells.new result }
{
    let mut places = [0u16; POINTS];
    if let Some(stray) = place_points(points, m, cells, n, units, &mut places) {
        return Err(refused(STRAY_POINT, File::Curves, stray as u64));
    }
    hold_curves(points, m, &places, cells, n)
}

// Holds points that have their rows to 33 and 34, and prices the rows by them.
fn hold_curves(
    points: &[u64],
    m: usize,
    places: &[u16],
    cells: &mut [u64],
    n: usize,
) -> Result<usize, Refusal>
    requires point_cells { PointCells m points.now }
    requires row_cells { RowCells n cells.old }
    requires placed { Placed m points.now n cells.old places.now }
    ensures { CurvesHeld m points.now n cells.old cells.new result }
{
    let mut lasts = [0u16; ROW_PLACES];
    let mut counts = [0u16; ROW_PLACES];
    if let Some(fault) = disordered(points, m, places, &mut lasts, &mut counts) {
        return Err(refused(DISORDERED, File::Curves, fault as u64));
    }
    if let Some(low) = ends_low(points, m, places, &lasts, cells, n) {
        return Err(refused(ENDS_LOW, File::Curves, low as u64));
    }
    price_rows(points, m, places, cells, n);
    Ok(m)
}
