// Reading a file in one pass. A file that is not refused has fields of one text each, in or out of
// quotes; the pass reads such a file and lays down its cells as it goes. Where it meets anything
// else it gives up, and the exact reading of `tables` answers. Assumes nothing of the bytes.
#![tactic(auto)]

mod fields;
mod headers;
mod rows;
mod whole;

pub use whole::read;
