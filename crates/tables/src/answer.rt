// A row of the answer, by value, with verdict and kind as their letters.

#[derive(Clone, Copy)]
pub struct AnswerRow {
    pub unit: u64,
    pub supplier: u64,
    pub verdict: u64,
    pub left: u64,
    pub schedule: u64,
    pub kind: u64,
    pub cost: u64,
}
