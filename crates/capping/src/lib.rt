// What host programs in C, Rust and Python link: the check of three files, the study of a fresh day, a
// day that is studied, previewed and released from call after call, the test of one supplier, also fed one
// amount a call, and one file tidied.
#![tactic(auto)]

mod calls;
mod check;
mod day_calls;
mod days;
mod exports;
mod feeding;
mod previewing;
mod tidying;

pub use check::capping_check;
pub use day_calls::{capping_day_fresh, capping_day_release, capping_day_study};
pub use exports::{capping_study, capping_test};
pub use feeding::{capping_fed_ask, capping_fed_begin, capping_fed_feed};
pub use previewing::capping_preview;
pub use tidying::{capping_longest_tidy, capping_tidy};
