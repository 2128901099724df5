//! The quasilinear test, with evidence for each verdict.
#![tactic(auto)]

mod quasilinear_verdict;
mod sums;

pub use quasilinear_verdict::quasilinear;
