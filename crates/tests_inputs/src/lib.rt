//! Tables and choices whose answers are known, for every crate of tests. It has no test of its own.
#![tactic(auto)]

pub mod choices;
pub mod tables;
