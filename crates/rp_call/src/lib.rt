//! One call over files in memory: what the program answers to words and bytes that another program hands over. Nothing is
//! read, nothing is printed, and nothing is kept between calls.
#![tactic(auto)]

mod asking;
mod calling;
mod ending;
mod naming;
mod running;

pub use calling::{answer, answer_edition};
pub use ending::Ending;
pub use naming::name_files;
