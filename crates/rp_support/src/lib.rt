//! Demand at new prices: one demand that keeps the axiom, and the bounds of each good over all.
#![tactic(auto)]

mod below;
mod demand_verdict;
mod goods;
mod inner;

pub use demand_verdict::demand;
