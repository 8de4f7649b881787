// Schedules alone, and beside a market: its rows in a lent run, and linked in another, or the first
// refusal. Assumes nothing of the bytes.
ghost use Rattle.std.specs.Prelude.{[], ◌∷◌, ◌≤◌, length, take};
ghost use Rattle.tables.specs.promises.Laying.{room};
ghost use Rattle.tables.specs.declared.files.File.TheVariants.{Schedules};
ghost use Rattle.links.specs.promises.Links.{links_length, Unlinked};
ghost use Rattle.checking.specs.promises.Alone.{SchedulesChecked};
ghost use Rattle.checking.specs.promises.Market.{MarketFits};
ghost use Rattle.checking.specs.Files.{schedules_of, alone_refusals, beside_refusals};
ghost use Rattle.checking.specs.promises.Curves.{priced_rows};
ghost use Rattle.checking.specs.promises.Rules.{refusal_in};

use crate::answers::answer;
use crate::market::Market;
use crate::refusals::AT_ODDS;
use crate::rules::hold;
use schedules::{link_rows, schedules_at_odds};
use tables::{File, Refusal};

// Reads schedules, links its rows and holds them to each other.
pub fn read_schedules(bytes: &[u8], cells: &mut [u64], links: &mut [u16]) -> Result<usize, Refusal>
    requires room_in_bounds { room Schedules ≤ length cells.old }
    requires links_length_in_bounds { links_length ≤ length links.old }
    requires unlinked { Unlinked links.old }
    ensures { SchedulesChecked (alone_refusals Schedules bytes.now) (schedules_of bytes.now) cells.new links.new result }
{
    let n = onepass::read(File::Schedules, bytes, cells)?;
    link_rows(cells, n, links);
    let odd = schedules_at_odds(cells, n, links).map(|record| record as u64);
    answer(AT_ODDS, odd, n)
}

// Reads schedules, holds its rows to the market too, whose units are listed, and puts the prices of
// curves into them. What reading parents answered waits for its turn between 7 and 8.
pub fn check_schedules(
    market: Market,
    parents: Result<usize, Refusal>,
    schedules: &[u8],
    curves: &[u8],
    units: &[u64],
    cells: &mut [u64],
    links: &mut [u16],
) -> Result<usize, Refusal>
    requires market_fits { MarketFits market units.now }
    requires room_in_bounds { room Schedules ≤ length cells.old }
    requires links_length_in_bounds { links_length ≤ length links.old }
    requires unlinked { Unlinked links.old }
    ensures { SchedulesChecked (beside_refusals (refusal_in parents ∷ []) market.constraint.hour (take market.units units.now) schedules.now curves.now) (priced_rows schedules.now curves.now) cells.new links.new result }
{
    let n = read_schedules(schedules, cells, links)?;
    let known = &units[..market.units];
    hold(
        market.constraint.hour,
        parents,
        curves,
        cells,
        n,
        links,
        known,
    )
}
