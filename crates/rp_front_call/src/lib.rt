//! Calls of programs over files in memory: what a program of `rp_front` answers to words and bytes that another program
//! hands over, and which files words name. Nothing is read, nothing is printed, and nothing is kept between calls.
#![tactic(auto)]

mod asking;
mod called;
mod calling;
mod ending;
mod naming;
mod running;

pub use called::CalledProgram;
pub use calling::answer_call;
pub use ending::Ending;
pub use naming::name_files_of;
