//! How the run of the simplex ends.
use rp_farkas::{Entry, Pair};
use rp_num::Seq;

/// How the run of the simplex ends: at a best point with its prices, at a feasible point with a ray (both over one
/// denominator), or at the first step whose numbers pass 2^63 - 1.
#[derive(Debug, Drop)]
pub enum Outcome {
    Optimal(Pair),
    Unbounded {
        den: u64,
        point: Seq<Entry>,
        ray: Seq<Entry>,
    },
    Wide {
        step: u64,
    },
}
