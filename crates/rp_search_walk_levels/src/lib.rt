//! Searches for evidence on the levels at which tests of closed walks hold: the quasilinear and the homothetic level.
//! Whatever is found is given only where the checker takes it.
#![tactic(auto)]

mod homothetic_level;
mod logarithm;
mod low;
mod quasilinear_level;
mod rounds;
mod steps;
mod totals;

pub use homothetic_level::search_homothetic_level;
pub use quasilinear_level::search_quasilinear_level;
