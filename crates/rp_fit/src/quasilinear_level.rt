//! Evidence on the level at which the quasilinear test holds.
use rp_num::Seq;

/// The level `num/den`, a closed walk that has this quotient of the sums, the first observation again at its end, and
/// values of the observations that show that no closed walk has a lower one (Afriat 1973; Brown and Calsamiglia 2007).
/// Observations count from 0; values are in the units of costs times `den`.
#[derive(Debug, Drop)]
pub struct QuasilinearLevelPart {
    pub num: u64,
    pub den: u64,
    pub walk: Seq<u32>,
    pub values: Seq<i128>,
}
