//! The greatest money pump ratio, with evidence, and its report (Echenique, Lee and Shum 2011).
#![tactic(auto)]

mod best;
mod report;
mod search;
mod step;
mod sums;
mod total;

pub use report::report_pump;
pub use search::pump;
