//! Closed walks of strict steps, with weights.
use rp_num::Seq;

/// A closed walk of strict steps, the first observation again at its end, through no observation twice, with its weight.
/// Observations count from 0.
#[derive(Debug, Drop)]
pub struct WeightedWalk {
    pub weight: u64,
    pub walk: Seq<u32>,
}
