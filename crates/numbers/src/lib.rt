// Different numbers at the start of a lent run: asking for one, finding its place, and putting one in
// by rising number. What the numbers stand for is their users' business.
#![tactic(auto)]

mod inserting;
mod searching;

pub use inserting::insert;
pub use searching::{contains, place_of};
