//! What the programs of this project have in common: words that ask, files that are read in their order, an answer, and
//! what is written and told of it.
#![tactic(auto)]

mod answer;
mod ending;
mod number;
mod program;
mod running;
mod status;
mod telling;

pub use answer::{Answer, Cause};
pub use number::number_in;
pub use program::Program;
pub use running::run_program;
pub use status::Status;
