//! The generalized axiom of revealed preference, with evidence for each verdict.
#![tactic(auto)]

mod contradiction;
mod garp_test;
mod garp_verdict;
mod laws;
mod meeting;

pub use contradiction::pairs;
pub use garp_test::GarpTest;
pub use garp_verdict::garp;
pub use laws::given_evidence_depends_on_observed_costs;
pub use meeting::{meets_garp, meets_garp_over};
