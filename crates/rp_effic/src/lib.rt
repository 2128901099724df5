//! The critical cost efficiency index, found by halving, with its evidence.
#![tactic(auto)]

mod above;
mod ask;
mod bracket;
mod closed_walk;
mod efficiency_verdict;
mod index;
mod laws;
mod ratio;
mod ratios;
mod returning;
mod sampling;
mod thresholds;
mod weak_steps;

pub use ask::{Ask, first_true};
pub use efficiency_verdict::efficiency;
pub use laws::given_evidence_depends_on_observed_costs;
