//! The report that a certificate is printed as.
#![tactic(auto)]

mod afriat;
mod demand;
mod efficiency;
mod garp;
mod homothetic;
mod patches;
mod quasilinear;
mod random;
mod tables;
mod welfare;

pub use efficiency::push_index;
pub use patches::report_random;
pub use tables::report;
