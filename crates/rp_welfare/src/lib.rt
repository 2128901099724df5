//! Bounds on the money metric: what it costs at new prices to be as well off as at an observation (after Varian 1982).
#![tactic(auto)]

mod lower;
mod reached;
mod upper;
mod welfare_verdict;

pub use welfare_verdict::welfare;
