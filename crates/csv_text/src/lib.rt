// Reading by RFC 4180: a scan of a whole file, and fields as parts of it that begin where the
// field begins. Every function answers for any bytes; that the answers are those of the RFC is
// shown for the files that the scan finds regular.
#![tactic(auto)]

mod fields;
mod scanning;

pub use fields::{after_field, field_length, inner};
pub use scanning::{Regular, scan};
