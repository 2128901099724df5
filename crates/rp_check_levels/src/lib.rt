//! The checker of evidence on goodness of fit, over walks: levels of the observations' own, and the least cost of strict
//! steps whose removal leaves no closed walk of them. A function for each item, by plain loops over the costs. No memory
//! is taken.
#![tactic(auto)]

mod levels;
mod loads;
mod measure;
mod steps;
mod walks;

pub use levels::check_levels;
pub use measure::{Measure, limit};
pub use steps::{check_steps, cost_of_taken};
