// The check of constraint, supply and schedules for host programs: 0, or the number of the first refusal
// as far as 9 that a study of them without curves and parents gives. Assumes nothing of the bytes.
ghost use Rattle.std.specs.Prelude.{◌≡◌, [], ◌∷◌, take, None};
ghost use Rattle.base.specs.Search.{first_of};
ghost use Rattle.checking.specs.promises.Market.{MarketFits};
ghost use Rattle.checking.specs.Files.{files, beside_refusals, check_number};
ghost use Rattle.tables.specs.Refusals.{told};

use checking::{Market, SCHEDULE_CELLS, SUPPLY_CELLS, UNITS_LENGTH, check_market, check_schedules};

#[unsafe(no_mangle)]
pub extern "C" fn capping_check(constraint: &[u8], supply: &[u8], schedules: &[u8]) -> u64
    ensures { result ≡ check_number (files constraint.now supply.now schedules.now [] []) }
{
    let mut cells = [0u64; SUPPLY_CELLS];
    let mut units = [0u64; UNITS_LENGTH];
    let check = check_market(constraint, supply, &mut cells, &mut units);
    match check {
        Err(refusal) => refusal.number,
        Ok(market) => schedules_number(market, schedules, &units),
    }
}

// The check of schedules beside a market, whose units are listed.
fn schedules_number(market: Market, schedules: &[u8], units: &[u64]) -> u64
    requires { MarketFits market units.now }
    ensures { result ≡ (told (first_of (beside_refusals (None ∷ []) market.constraint.hour (take market.units units.now) schedules.now []))).number }
{
    let mut cells = [0u64; SCHEDULE_CELLS];
    let mut links = [0u16; links::LENGTH];
    let reading = check_schedules(market, Ok(0), schedules, &[], units, &mut cells, &mut links);
    match reading {
        Err(later) => later.number,
        Ok(_) => 0,
    }
}
