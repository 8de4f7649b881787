// The hours of a schedule's run, which ends with the day at the latest. Assumes a study hour of the day
// and a run no longer than one.
#![tactic(auto)]

ghost use Rattle.std.specs.Prelude.{◌≡◌, ◌+◌, ◌≤◌};
ghost use Rattle.hours.specs.Hours.{last_hour, run_end, in_run};

// The last hour of the day.
pub const LAST_HOUR: u64 = 23;

// Whether hour `k` is in the run of a schedule that begins at `hour`.
pub fn in_run(hour: u64, minrun: u64, k: u64) -> bool
    requires hour_le_last_hour { hour ≤ last_hour }
    requires one_le_minrun { 1 ≤ minrun }
    requires minrun_bound { minrun ≤ last_hour + 1 }
    ensures { result ≡ in_run hour minrun k }
{
    if k < hour {
        return false;
    }
    k <= run_end(hour, minrun)
}

// The last hour of that run.
pub fn run_end(hour: u64, minrun: u64) -> u64
    requires hour_le_last_hour { hour ≤ last_hour }
    requires one_le_minrun { 1 ≤ minrun }
    requires minrun_bound { minrun ≤ last_hour + 1 }
    ensures { result ≡ run_end hour minrun }
{
    let end = hour + minrun - 1;
    if end < LAST_HOUR { end } else { LAST_HOUR }
}
