// The constraint's one row, by value: the study hour, the relief in tenths of a MW and the cutoff in
// ten-thousandths.

#[derive(Clone, Copy)]
pub struct ConstraintRow {
    pub hour: u64,
    pub relief: u64,
    pub cutoff: u64,
}
