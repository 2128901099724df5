//! Walks of revealed preference: single steps, what reaches what, and shortest walks.
#![tactic(auto)]

mod bits;
mod closure;
mod revealed;
mod search;
mod steps;
mod verdict;
mod walk;

pub use closure::{Closure, closures_count};
pub use revealed::{AtLevel, OwnLevels, Revealed};
pub use steps::{Steps, own_strict, own_weak, strict, weak};
pub use verdict::{own_verdict, shortest_weak_walk, verdict_at, verdict_over};
pub use walk::{own_walk, shortest_walk, walk_between};
