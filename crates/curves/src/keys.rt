// Schedule rows linked for points, by keys that no two schedules share where all units are those of supply.
// The keys that the rules between rows go by can be shared: numbers may be picked so that all schedules have
// one, and each point would then be held to every row. Assumes nothing of the numbers.
ghost use Rattle.std.specs.Prelude.{◌≡◌, ◌+◌, ◌*◌, ◌≤◌, ◌<◌, length};
ghost use Rattle.cells.specs.promises.Views.{schedule_width};
ghost use Rattle.links.specs.promises.Links.{most_linked, Unlinked, Linked};
ghost use Rattle.curves.specs.promises.Keys.{unit_places, numbered, own_keys, own_key, row_key};

use cells::schedule;
use links::link;

// The places of units in a run of their numbers, and the length of a run of links.
pub const UNIT_PLACES: usize = 10240;

pub const LENGTH: usize = 9216;

// What a key tells apart: so many units, and so many schedules of each.
const UNITS: usize = 64;

const SCHEDULES: usize = 128;

// Numbers each unit by its place.
pub fn number_units(units: &[u64], numbers: &mut [u8])
    requires { unit_places ≤ length numbers.old }
    ensures { numbers.new ≡ numbered units.now (length units.now) numbers.old }
{
    for (i, &unit) in units.iter().enumerate() {
        let place = (unit % UNIT_PLACES as u64) as usize;
        numbers[place] = (i % UNITS) as u8;
    }
}

// Links the first `n` rows by their schedules' keys.
pub fn link_schedules(cells: &[u64], n: usize, numbers: &[u8], links: &mut [u16])
    requires n_le_most_linked { n ≤ most_linked }
    requires schedule_width_in_bounds { n * schedule_width ≤ length cells.now }
    requires unit_places_in_bounds { unit_places ≤ length numbers.now }
    requires own_keys_in_bounds { most_linked + own_keys ≤ length links.old }
    requires unlinked { Unlinked links.old }
    ensures { Linked (row_key numbers.now cells.now) own_keys n links.new }
{
    for k in 0..n {
        let unit = schedule::cell(cells, k, schedule::UNIT);
        let key = own_key(numbers, unit, schedule::cell(cells, k, schedule::SCHEDULE));
        link(links, key, k);
    }
}

// The key of a schedule.
pub fn own_key(numbers: &[u8], unit: u64, schedule: u64) -> usize
    requires { unit_places ≤ length numbers.now }
    ensures { (result ≡ own_key numbers.now unit schedule) × (result < own_keys) }
{
    let place = (unit % UNIT_PLACES as u64) as usize;
    let number = numbers[place] as usize;
    number % UNITS * SCHEDULES + (schedule % SCHEDULES as u64) as usize
}
