// How many rows supply and schedules have, and how many units supply has.

#[derive(Clone, Copy)]
pub struct Sizes {
    pub supply: usize,
    pub schedules: usize,
    pub units: usize,
}
