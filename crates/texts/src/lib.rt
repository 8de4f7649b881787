// Texts compared, taken apart at a byte, and read into a room.
#![tactic(auto)]

mod comparing;
mod filling;
mod parting;

pub use comparing::same_text;
pub use filling::fill;
pub use parting::{after, behind, first};
