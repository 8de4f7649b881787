// The writer of tidy files: constraint, supply or schedules as the engine understood them, unquoted and with
// a CR LF after each record. A value has one text, so the tidy file of a file that is not refused is that file
// without its quotes, and is copied. Assumes nothing of the bytes and the buffer.
#![tactic(auto)]

mod copying;
mod files;
mod longest;

pub use files::{tidy_constraint, tidy_schedules, tidy_supply};
pub use longest::{
    LONGEST_CONSTRAINT, LONGEST_SCHEDULES, LONGEST_SUPPLY, longest_constraint, longest_schedules,
    longest_supply,
};
