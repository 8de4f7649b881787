// A day as host programs keep it: a fixed array of cells that is lent to each call. Any cells whatever
// are a day; whether it is well-formed is asked of the day that they mean. Numbers stand for what is there and
// for kinds, since hosts in C keep the cells. Assumes nothing of them.
ghost use Rattle.std.specs.Prelude.{◌≡◌, cond, [], ◌∷◌, ◌++◌, ◌<◌, length, get_or, take};
ghost use Rattle.outcome.specs.Day.{most_running};
ghost use Rattle.running.specs.View.{unit_of, units_of};
ghost use Rattle.engine.specs.View.{view_of};
ghost use Rattle.capping.specs.promises.Places.{cells_of_place, placed};
ghost use Rattle.capping.specs.Days.{first_place, day_length, hour_in, unit_in, unit_at, units_from, day_in, hour_cells, unit_cells, place_cells, day_cells};

use engine::Day;
use running::{Running, Units};
use tables::{C, Kind, M, letter_of};

// The cells of a day.
pub const CELLS: usize = FIRST_PLACE + Day::UNITS * PLACE_WIDTH;

// Whether the day has an hour: it has one where anything but `NO_HOUR` stands here.
const HAS_HOUR: usize = 0;

const HOUR: usize = 1;

const COUNT: usize = 2;

// Behind them unit, kind and schedule of each place.
const FIRST_PLACE: usize = 3;

const PLACE_WIDTH: usize = 3;

const KIND: usize = 1;

const SCHEDULE: usize = 2;

const NO_HOUR: u64 = 0;

const SOME_HOUR: u64 = 1;

// The cells of one place.
#[derive(Clone, Copy)]
struct Place {
    unit: u64,
    kind: u64,
    schedule: u64,
}

// The day that cells mean.
pub(crate) fn day_in(cells: &[u64; CELLS]) -> Day
    ensures { view_of result ≡ day_in cells.now }
{
    let hour = hour_in(cells[HAS_HOUR], cells[HOUR]);
    let units = units_in(cells);
    Day { hour, units }
}

fn hour_in(has: u64, hour: u64) -> Option<u64>
    ensures { result ≡ hour_in has hour }
{
    if has == NO_HOUR { None } else { Some(hour) }
}

// All places are taken over; how many of them run is for the count to say.
fn units_in(cells: &[u64]) -> Units
    requires { length cells.now ≡ day_length }
    ensures { units_of result ≡ units_from cells.now 0 (get_or cells.now 2 0) }
{
    let none = Units::none();
    let mut running = none.running;
    for i in 0..Day::UNITS {
        let r = unit_at(cells, i);
        running[i] = r;
    }
    let count = cells[COUNT] as usize;
    Units { count, running }
}

fn unit_at(cells: &[u64], place: usize) -> Running
    requires cells_len { length cells.now ≡ day_length }
    requires place_lt_most_running { place < most_running }
    ensures { unit_of result ≡ unit_at cells.now place }
{
    let at = FIRST_PLACE + place * PLACE_WIDTH;
    unit_in(cells[at], cells[at + KIND], cells[at + SCHEDULE])
}

// A kind that is neither letter makes the day ill-formed: no unit has the number 0.
fn unit_in(unit: u64, kind: u64, schedule: u64) -> Running
    ensures { unit_of result ≡ unit_in unit kind schedule }
{
    if kind == M {
        return Running {
            unit,
            schedule,
            kind: Kind::M,
        };
    }
    if kind == C {
        return Running {
            unit,
            schedule,
            kind: Kind::C,
        };
    }
    Running {
        unit: 0,
        schedule: 0,
        kind: Kind::M,
    }
}

// Lays down the cells that stand for a day.
pub(crate) fn lay_down(day: Day, cells: &mut [u64; CELLS])
    ensures { cells.new ≡ day_cells (view_of day) }
{
    let hour = day.hour;
    let units = day.units;
    cells[HAS_HOUR] = has_hour(hour);
    cells[HOUR] = hour_or_zero(hour);
    cells[COUNT] = units.count as u64;
    lay_units(units, cells);
}

fn has_hour(hour: Option<u64>) -> u64
    ensures { result ≡ get_or (hour_cells hour) 0 0 }
{
    match hour {
        None => NO_HOUR,
        Some(_) => SOME_HOUR,
    }
}

fn hour_or_zero(hour: Option<u64>) -> u64
    ensures { result ≡ get_or (hour_cells hour) 1 0 }
{
    match hour {
        None => 0,
        Some(h) => h,
    }
}

// Every place is laid down, so that nothing of another day is left behind the count.
fn lay_units(units: Units, cells: &mut [u64])
    requires { length cells.old ≡ day_length }
    ensures { cells.new ≡ take first_place cells.old ++ place_cells most_running (units_of units) }
{
    let count = units.count;
    for i in 0..Day::UNITS {
        let r = units.running[i];
        lay_place(place_of(r, i < count), i, cells);
    }
}

fn place_of(r: Running, runs: bool) -> Place
    ensures { cells_of_place result ≡ cond runs (unit_cells (unit_of r)) (0 ∷ 0 ∷ 0 ∷ []) }
{
    if runs {
        let kind = r.kind;
        Place {
            unit: r.unit,
            kind: letter_of(kind),
            schedule: r.schedule,
        }
    } else {
        Place {
            unit: 0,
            kind: 0,
            schedule: 0,
        }
    }
}

fn lay_place(place: Place, i: usize, cells: &mut [u64])
    requires cells_len { length cells.old ≡ day_length }
    requires i_lt_most_running { i < most_running }
    ensures { cells.new ≡ placed place i cells.old }
{
    let at = FIRST_PLACE + i * PLACE_WIDTH;
    cells[at] = place.unit;
    cells[at + KIND] = place.kind;
    cells[at + SCHEDULE] = place.schedule;
}
