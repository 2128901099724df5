//! What the crates of tests share: `run` over files in memory, and how it is to end. It has no test of its own.
#![tactic(auto)]

mod endings;
mod running;

pub use endings::{CHECK, ends, filled, joined, prints, refuses, rejects, repeated};
pub use running::{
    CALM, Ended, Plan, gives, is_ended, run_in_pieces, run_over, run_with_failures, tells,
};
