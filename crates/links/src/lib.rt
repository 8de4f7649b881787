// Rows linked by a key, so that a search among the rows of one unit, or of one schedule, goes from
// each to the last one before it. Links by a key are first, for each row, one more than the place of
// the last row before it with its key, and behind these, for each key, one more than the place of the
// last row that has it; 0 stands for none. A run of links has those by unit, and behind them those by
// unit and schedule. Different units or schedules may share a key: what is searched for tells them
// apart. Places are numbers, with 0 for none: this is fixed memory, and an `Option` would take twice the
// room. Assumes nothing of the numbers.
#![tactic(auto)]

ghost use Rattle.std.specs.Prelude.{◌≡◌, ◌+◌, ◌≤◌, ◌<◌, ◌++◌, length, get_or, take, drop};
ghost use Rattle.links.specs.promises.Links.{most_linked, row_linked, unit_keys, schedule_keys, by_unit, by_schedule, unit_links, links_length};

// The most rows, and how many keys there are.
pub const ROWS: usize = 1024;

const UNIT_KEYS: u64 = 1024;

const SCHEDULE_KEYS: u64 = 2039;

// The length of the links by unit, and of the whole run.
pub const UNIT_LINKS: usize = 2048;

pub const LENGTH: usize = 5111;

// What a key by unit and schedule goes by: so much of the unit, and of the schedule.
const UNITS: u64 = 16384;

const SCHEDULES: u64 = 128;

// Links row `k`, of a schedule, by its unit, and by its unit and schedule.
pub fn link_row(links: &mut [u16], unit: u64, schedule: u64, k: usize)
    requires k_lt_most_linked { k < most_linked }
    requires links_length_in_bounds { links_length ≤ length links.old }
    ensures { links.new ≡ row_linked (take unit_links links.old) (by_unit unit) k ++ row_linked (drop unit_links links.old) (by_schedule unit schedule) k }
{
    link(&mut links[0..UNIT_LINKS], unit_key(unit), k);
    link(&mut links[UNIT_LINKS..], schedule_key(unit, schedule), k);
}

// Links row `k`, of the key, to the last row before it, and the key to the row.
pub fn link(links: &mut [u16], key: usize, k: usize)
    requires k_lt_most_linked { k < most_linked }
    requires key_in_bounds { most_linked + key < length links.old }
    ensures { links.new ≡ row_linked links.old key k }
{
    links[k] = links[ROWS + key];
    links[ROWS + key] = (k + 1) as u16;
}

// What stands at a place of a run of links.
pub fn link_at(links: &[u16], i: usize) -> usize
    requires { i < length links.now }
    ensures { result ≡ get_or links.now i 0 }
{
    links[i] as usize
}

pub fn unit_key(unit: u64) -> usize
    ensures { (result ≡ by_unit unit) × (result < unit_keys) }
{
    (unit % UNIT_KEYS) as usize
}

pub fn schedule_key(unit: u64, schedule: u64) -> usize
    ensures { (result ≡ by_schedule unit schedule) × (result < schedule_keys) }
{
    ((unit % UNITS * SCHEDULES + schedule % SCHEDULES) % SCHEDULE_KEYS) as usize
}
