//! Evidence by linear programs as JSON, both ways: bounds on demand and welfare, and random choices.
#![tactic(auto)]

mod bounds;
pub mod demand;
pub mod random;
mod tags;
pub mod welfare;
