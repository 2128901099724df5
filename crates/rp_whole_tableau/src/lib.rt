//! Bounds by linear programs on whole numbers over one denominator, the last pivot, whose divisions are exact (Edmonds
//! 1967; Bareiss 1968). Whatever is found is given only where the check of pairs takes it.
#![tactic(auto)]

mod bound;
mod choice;
mod divisor;
mod grown;
mod grown_readout;
mod pivot;
mod readout;
mod run;
mod signed;
mod tableau;
mod written_out;

pub use bound::whole_bound_of;
pub use grown::Grown;
pub use run::MOST_PIVOTS;
