//! Calls of the program of panels over files in memory: what it answers to words and bytes that another program hands
//! over, and which files words name.
#![tactic(auto)]

mod calling;

pub use calling::{answer_panel, name_panel_files};
pub use rp_front_call::Ending;
