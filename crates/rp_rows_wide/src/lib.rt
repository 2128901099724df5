//! The wider rows: the homothetic test of a household with what rounded products find where that test is withheld.
#![tactic(auto)]

mod filled;

pub use filled::Filled;
