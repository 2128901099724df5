//! The linear programs of bounds: of a good over a new budget, and of the least cost at new prices over listed
//! observations. No memory is taken, and nothing is solved.
#![tactic(auto)]

mod demand;
mod least_cost;

pub use demand::DemandProgram;
pub use least_cost::LeastCostProgram;
