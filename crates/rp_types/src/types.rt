//! Rational types.
use rp_num::Seq;

/// A rational type: the number of a patch of each budget, in their order.
#[derive(Debug, Drop)]
pub struct Rational {
    pub patches: Seq<u32>,
}
