//! The simplex over fractions of whole numbers, step for step, and the bound of a linear program by its run: its value
//! with the equal pair that shows it.
#![tactic(auto)]

mod bound;
mod choice;
mod division;
mod divisor;
mod dot;
mod first;
mod laws;
mod outcome;
mod pivot;
mod pricing;
mod readout;
mod renewal;
mod room;
mod run;
mod simplex;
mod stage;
mod tableau;
mod width;

pub use bound::bound_of;
pub use laws::{
    each_step_grows, outcomes_are_evidence, same_programs_have_the_same_outcomes,
    the_run_is_determined,
};
pub use outcome::Outcome;
pub use simplex::maximize;
pub use tableau::Tableau;
