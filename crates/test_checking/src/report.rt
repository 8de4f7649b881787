// What a case prints. Assumes nothing.
ghost use Rattle.checking.specs.promises.Market.{MarketFits};

use checking::{Market, SCHEDULE_CELLS, SUPPLY_CELLS, UNITS_LENGTH, check_market, check_schedules};
use std::io;

// Files three files and prints the refusal, or how many rows and units there are.
pub fn case(rt: &impl Print, constraint: &[u8], supply: &[u8], schedules: &[u8]) -> io::Result<()> {
    let mut cells = [0u64; SUPPLY_CELLS];
    let mut units = [0u64; UNITS_LENGTH];
    let check = check_market(constraint, supply, &mut cells, &mut units);
    match check {
        Err(refusal) => println!(rt; "{refusal}"),
        Ok(market) => with_market(rt, market, schedules, &units),
    }
}

// The same of schedules, beside a market whose units are listed.
fn with_market(rt: &impl Print, market: Market, schedules: &[u8], units: &[u64]) -> io::Result<()>
    requires { MarketFits market units.now }
{
    let mut cells = [0u64; SCHEDULE_CELLS];
    let mut links = [0u16; links::LENGTH];
    let reading = check_schedules(market, Ok(0), schedules, &[], units, &mut cells, &mut links);
    match reading {
        Err(refusal) => println!(rt; "{refusal}"),
        Ok(n) => print_rows(rt, market.rows, n, market.units),
    }
}

fn print_rows(rt: &impl Print, supply: usize, schedules: usize, units: usize) -> io::Result<()> {
    println!(rt; "rows {supply},{schedules},{units}")
}
