// The numbers of the refusals that a day gives, as `Refusal` of tables has them.

// The answer buffer is shorter than the answer.
pub const SHORT_BUFFER: u64 = 10;

// The hour is earlier than the day's.
pub const EARLIER_HOUR: u64 = 20;

// A unit that runs on cost has no C schedule.
pub const NO_COST_SCHEDULE: u64 = 21;

// More units would run than a day has places.
pub const TOO_MANY_RUNNING: u64 = 22;

// A unit to be released isn't running.
pub const NOT_RUNNING: u64 = 23;

// The day is ill-formed.
pub const ILL_FORMED: u64 = 24;

// A unit to be previewed isn't in the supply file.
pub const NOT_SUPPLIED: u64 = 31;
