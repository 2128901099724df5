//! Calls of the program of goodness of fit over files in memory: what it answers to words and bytes that another program hands
//! over, and which files words name.
#![tactic(auto)]

mod calling;
mod words;

pub use calling::{answer_fit, name_fit_files};
pub use rp_front_call::Ending;
pub use words::asks_fit;
