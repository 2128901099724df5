//! Points and their prices by positive entries.
use rp_num::Seq;

/// A positive entry of a point: its column, and its numerator.
#[derive(Clone, Copy, Debug, PartialEq, Eq)]
pub struct Entry {
    pub at: u32,
    pub value: u64,
}

/// A point and a price vector over one denominator: `y` lists the positive entries of the point in rising order of
/// their columns, and `x` has one price for each row.
#[derive(Debug, Drop)]
pub struct Pair {
    pub den: u64,
    pub y: Seq<Entry>,
    pub x: Seq<u64>,
}
