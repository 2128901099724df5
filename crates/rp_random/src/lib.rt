//! Random utility: a mixture of rational types, or weights of the patches that show there is none (McFadden and
//! Richter 1990; Kitamura and Stoye 2018).
#![tactic(auto)]

mod listed;
mod random_verdict;

pub use random_verdict::random;
