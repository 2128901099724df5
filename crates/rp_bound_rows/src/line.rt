//! A line of bounds.
use crate::side::Sides;
use rp_num::Seq;

/// A line: the number of the record of new prices, from 1; the name of the good, or the number of the observation, that
/// the bounds are about; and what is told of them.
#[derive(Debug, Drop)]
pub struct Line {
    pub price: u32,
    pub about: Seq<u8>,
    pub bounds: Sides,
}
