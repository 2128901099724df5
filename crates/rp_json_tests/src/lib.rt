//! Evidence of the tests of a table as JSON, both ways.
#![tactic(auto)]

pub mod afriat;
pub mod efficiency;
pub mod garp;
pub mod homothetic;
pub mod quasilinear;
mod tags;
