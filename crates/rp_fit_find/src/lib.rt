//! A whole certificate on goodness of fit of a table: each index with its evidence.
#![tactic(auto)]

mod by_costs;
mod by_levels;
mod by_looks;
mod certificate;
mod parts;
mod read_back;

pub use certificate::find_fit;
