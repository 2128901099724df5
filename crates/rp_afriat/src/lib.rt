//! Afriat's numbers, which show that choices maximize a utility, and the utility that they give.
#![tactic(auto)]

mod afriat_verdict;
mod bounds;
mod classes;
mod multipliers;
mod utility;

pub use afriat_verdict::afriat;
pub use utility::utility_at;
