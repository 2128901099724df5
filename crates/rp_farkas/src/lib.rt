//! Linear programs, and the evidence that decides them: equal pairs and rays, checked exactly.
#![tactic(auto)]

mod entry;
mod laws;
mod listing;
mod measure;
mod pair;
mod program;
mod ray;
mod sums;

pub use entry::{Entry, Pair};
pub use laws::{equal_pairs_are_best, rays_leave_no_bound};
pub use listing::EVIDENCE_WIDTH;
pub use measure::Measure;
pub use pair::check_pair;
pub use program::{Lp, Program};
pub use ray::check_ray;
