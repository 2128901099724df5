//! The wider bounds: those of a household at new prices, with what is found past the widths where one is withheld.
#![tactic(auto)]

mod filled;
mod item;

pub use filled::Filled;
