// What a case prints, in one line: the need, the eligible supply, `short` where it is below the
// need, the rows, and where it is not short the clearing row's place and the suppliers, by rising
// number. Each row is its effective supply and a letter: `r` where it is relevant, `e` where it is
// only eligible, else `-`. Each supplier is its number, its amount, and what the test answers: left
// and verdict.
// Assumes nothing but a relief that the table permits.
ghost use Rattle.std.specs.Prelude.{◌≤◌, ◌<◌, length};
ghost use Rattle.offers.specs.promises.Ranges.{SupplyCells};

use checking::SUPPLY_CELLS;
use pivotal::{Finding, Tested};
use std::io;
use tables::File;

// Room for the suppliers of so many rows, and for one more.
const SUPPLIERS: usize = 257;

// The market of a supply file, whose rows are lent as the cells that reading lays down, for a relief
// that the table permits.
pub fn case(rt: &impl Print, relief: u64, cutoff: u64, supply: &[u8]) -> io::Result<()>
    requires { relief ≤ 1000000 }
{
    let need = market::need_of(relief);
    let mut cells = [0u64; SUPPLY_CELLS];
    let reading = tables::read(File::Supply, supply, &mut cells);
    match reading {
        Ok(n) => print_market(rt, &cells, n, cutoff, need)?,
        Err(refusal) => print_number(rt, b"refused ", refusal.number)?,
    }
    rt.write_all(b"\n")
}

fn print_market(rt: &impl Print, cells: &[u64], n: usize, cutoff: u64, need: u64) -> io::Result<()>
    requires { SupplyCells n cells.now }
{
    let supply = market::eligible_supply(cells, n, cutoff);
    print_number(rt, b"need ", need)?;
    print_number(rt, b" supply ", supply)?;
    if supply < need {
        rt.write_all(b" short")?;
    }
    let clearing = market::clearing_row(cells, n, cutoff, need);
    rt.write_all(b" rows")?;
    print_rows(rt, cells, n, cutoff, clearing)?;
    if clearing < n {
        print_number(rt, b" clears ", clearing as u64)?;
        print_suppliers(rt, cells, n, cutoff, need, clearing)?;
    }
    Ok(())
}

fn print_rows(
    rt: &impl Print,
    cells: &[u64],
    n: usize,
    cutoff: u64,
    clearing: usize,
) -> io::Result<()>
    requires { SupplyCells n cells.now }
{
    for row in 0..n {
        print_number(rt, b" ", offers::effective_supply(cells, row))?;
        print_letter(rt, cells, n, cutoff, clearing, row)?;
    }
    Ok(())
}

fn print_letter(
    rt: &impl Print,
    cells: &[u64],
    n: usize,
    cutoff: u64,
    clearing: usize,
    row: usize,
) -> io::Result<()>
    requires supply_cells { SupplyCells n cells.now }
    requires row_lt_n { row < n }
{
    if clearing < n {
        if offers::is_relevant(cells, row, clearing, cutoff) {
            return rt.write_all(b"r");
        }
    }
    if offers::is_eligible(cells, row, cutoff) {
        return rt.write_all(b"e");
    }
    rt.write_all(b"-")
}

fn print_suppliers(
    rt: &impl Print,
    cells: &[u64],
    n: usize,
    cutoff: u64,
    need: u64,
    clearing: usize,
) -> io::Result<()>
    requires supply_cells { SupplyCells n cells.now }
    requires clearing_lt_n { clearing < n }
{
    let mut suppliers = [0u64; SUPPLIERS];
    let count = market::list_parties(cells, n, &mut suppliers);
    let mut amounts = [0u64; SUPPLIERS];
    market::add_amounts(cells, n, cutoff, clearing, &suppliers, count, &mut amounts);
    rt.write_all(b" suppliers")?;
    print_tests(rt, &suppliers, &amounts, count, need)
}

fn print_tests(
    rt: &impl Print,
    suppliers: &[u64],
    amounts: &[u64],
    count: usize,
    need: u64,
) -> io::Result<()>
    requires count_in_bounds { count ≤ length suppliers.now }
    requires count_in_bounds_2 { count ≤ length amounts.now }
{
    for place in 0..count {
        print_number(rt, b" ", suppliers[place])?;
        print_number(rt, b":", amounts[place])?;
        print_test(rt, &amounts[0..count], place, need)?;
    }
    Ok(())
}

fn print_test(rt: &impl Print, amounts: &[u64], place: usize, need: u64) -> io::Result<()> {
    match pivotal::test(amounts, place, need) {
        Some(tested) => print_tested(rt, tested),
        None => rt.write_all(b":refused"),
    }
}

fn print_tested(rt: &impl Print, tested: Tested) -> io::Result<()> {
    print_number(rt, b":", tested.left)?;
    match tested.found {
        Finding::Passes => rt.write_all(b"P"),
        Finding::Fails => rt.write_all(b"F"),
    }
}

pub fn print_number(rt: &impl Print, before: &[u8], number: u64) -> io::Result<()> {
    rt.write_all(before)?;
    print!(rt; "{number}")
}
