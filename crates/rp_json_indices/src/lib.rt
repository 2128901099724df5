//! Evidence on goodness of fit as JSON, both ways.
#![tactic(auto)]

mod cycles;
mod groups;
pub mod homothetic_level;
pub mod kept;
pub mod levels;
mod measure;
mod places;
pub mod pump;
pub mod quasilinear_level;
pub mod steps;
mod tags;
pub mod violations;
mod whole;
