// The engine: the day by value, with what is done to it.
#![tactic(auto)]

mod asking;
mod day;
mod deciding;
mod previewing;
mod refusals;
mod releasing;
mod studying;

pub use day::Day;
pub use previewing::Previewed;
pub use releasing::Released;
pub use studying::Studied;
