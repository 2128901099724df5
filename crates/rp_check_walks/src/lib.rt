//! What the checkers of goodness of fit ask of steps and of walks: whether a step is weak or strict, and whether a walk
//! goes through no observation twice. No memory is taken.
#![tactic(auto)]

mod distinct;
mod steps;

pub use distinct::are_distinct;
pub use steps::{is_strict, is_weak};
