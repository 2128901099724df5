//! The homothetic test, with evidence for each verdict.
#![tactic(auto)]

mod homothetic_verdict;
mod products;

pub use homothetic_verdict::homothetic;
