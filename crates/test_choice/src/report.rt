// What a case prints: the schedule that is chosen, its kind and its cost. Assumes nothing.
ghost use Rattle.std.specs.Prelude.{◌*◌, ◌≤◌, length};
ghost use Rattle.cells.specs.promises.Views.{schedule_width};
ghost use Rattle.links.specs.promises.Links.{RowsLinked};
ghost use Rattle.choice.specs.promises.Ranges.{ScheduleCells};

use cells::schedule::{UNIT, cell};
use checking::SCHEDULE_CELLS;
use choice::{Choice, Schedules};
use links::LENGTH;
use schedules::link_rows;
use std::io;
use tables::{File, Kind};
use test_cases::unreadable;

// The choice for the unit of a schedules file, whose rows are lent as the cells that reading lays
// down.
pub fn case(
    rt: &impl Print,
    hour: u64,
    is_exposed: bool,
    day: Option<Kind>,
    schedules: &[u8],
) -> io::Result<()> {
    let mut cells = [0u64; SCHEDULE_CELLS];
    let reading = tables::read(File::Schedules, schedules, &mut cells);
    match reading {
        Ok(n) => choose(rt, &cells, n, hour, is_exposed, day),
        Err(_) => unreadable(rt),
    }
}

fn choose(
    rt: &impl Print,
    cells: &[u64],
    n: usize,
    hour: u64,
    is_exposed: bool,
    day: Option<Kind>,
) -> io::Result<()>
    requires { ScheduleCells n cells.now }
{
    let mut links = [0u16; LENGTH];
    link_rows(cells, n, &mut links);
    choose_linked(rt, cells, n, &links, hour, is_exposed, day)
}

fn choose_linked(
    rt: &impl Print,
    cells: &[u64],
    n: usize,
    links: &[u16],
    hour: u64,
    is_exposed: bool,
    day: Option<Kind>,
) -> io::Result<()>
    requires schedule_cells { ScheduleCells n cells.now }
    requires rows_linked { RowsLinked cells.now n links.now }
{
    let schedules = Schedules::of(cells, n, links);
    match schedules.choose(unit(cells, n), hour, is_exposed, day) {
        Some(c) => print_choice(rt, c),
        None => rt.write_all(b"nothing\n"),
    }
}

// The unit of the first row; 0, which no unit has, where there is no row.
fn unit(cells: &[u64], n: usize) -> u64
    requires { n * schedule_width ≤ length cells.now }
{
    if n == 0 { 0 } else { cell(cells, 0, UNIT) }
}

fn print_choice(rt: &impl Print, c: Choice) -> io::Result<()> {
    print!(rt; "{}", c.schedule)?;
    let kind = c.kind;
    match kind {
        Kind::M => rt.write_all(b" M ")?,
        Kind::C => rt.write_all(b" C ")?,
    }
    println!(rt; "{}", c.cost)
}
