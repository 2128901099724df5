//! The rational types of random utility (McFadden and Richter 1990; Kitamura and Stoye 2018).
#![tactic(auto)]

mod combinations;
mod fault;
mod laws;
mod search;
mod types;

pub use fault::TypesFault;
pub use laws::rational_types_are_determined;
pub use search::rational_types;
pub use types::Rational;
