//! The checker of evidence on the levels at which tests of closed walks hold. No memory is taken.
#![tactic(auto)]

mod homothetic_level;
mod products;
mod pump;
mod quasilinear_level;
mod sums;

pub use homothetic_level::check_homothetic_level;
pub use pump::check_pump;
pub use quasilinear_level::check_quasilinear_level;
