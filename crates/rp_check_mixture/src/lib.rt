//! Clauses of a checker on mixtures of kinds of persons, each of whom uses one cell of every group, and on weights of
//! cells that show that there is none (McFadden and Richter 1990), whatever the kinds are; and these
//! clauses on random choices, for rational types.
#![tactic(auto)]

mod choices;
mod choosers;
mod dual;
mod evidence;
mod rational;
mod shares;
mod types;

pub use choices::{check_choices, check_choices_within};
pub use choosers::Choosers;
pub use evidence::check_evidence;
