//! Evidence on the level at which the homothetic test holds.
use rp_num::Seq;

/// Bounds on the level, `low` and `high` over 2^40: a closed walk whose geometric mean is at most the upper one, the
/// first observation again at its end, and positive values of the observations that show that no closed walk has a
/// geometric mean below the lower one (Heufer 2013; Heufer and Hjertstrand 2019). Observations count from 0.
#[derive(Debug, Drop)]
pub struct HomotheticLevelPart {
    pub low: u64,
    pub high: u64,
    pub walk: Seq<u32>,
    pub values: Seq<u64>,
}
