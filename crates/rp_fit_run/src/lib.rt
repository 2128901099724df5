//! The program of goodness of fit: the commands `fit` and `checkfit`.
#![tactic(auto)]

mod program;

pub use program::{GoodnessOfFit, run_fit};
