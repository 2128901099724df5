//! Mixtures of kinds of persons, each of whom uses one cell of every group, whatever the kinds are: one that has the
//! units, or weights of the cells that show there is none (McFadden and Richter 1990).
#![tactic(auto)]

mod listed;
mod mixture_verdict;
mod program;
mod shares;

pub use listed::Listed;
pub use mixture_verdict::mixture;
