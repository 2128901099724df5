//! Levels of efficiency.
/// A level of efficiency num/den between 0 and 1: the part of its expenditure that an observation counts as.
#[derive(Clone, Copy, Debug, PartialEq, Eq)]
pub struct Level {
    pub num: u64,
    pub den: u64,
}
