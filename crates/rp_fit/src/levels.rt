//! Evidence on levels of the observations' own.
use crate::weighted::WeightedWalk;
use rp_num::Seq;

/// Which mean over the observations the levels are to make small.
#[derive(Clone, Copy, Debug, PartialEq, Eq)]
pub enum Lack {
    /// The mean of what the levels lack of 1.
    Mean,
    /// The mean of the squares of that.
    Squares,
}

/// For each observation s, from 0, the observation `at` s whose bundle costs, at the prices of s, the part of what was
/// spent at s that is its level: s itself for the level 1, else one whose bundle costs less. With ranks that fall along
/// each step to a cheaper bundle than that, and with closed walks of strict steps, weighted over `den` times 2^40, that
/// bound the index from below (Varian 1990; Halevy, Persitz and Zrill 2018).
#[derive(Debug, Drop)]
pub struct LevelsPart {
    pub lack: Lack,
    pub at: Seq<u32>,
    pub ranks: Seq<u32>,
    pub den: u64,
    pub walks: Seq<WeightedWalk>,
}
