//! The program of panels: its words, the long file that they name, and what is written and told.
#![tactic(auto)]

mod answer;
mod helping;
mod laws;
mod program;
mod question;
mod running;
mod status;
mod telling;
mod words;

pub use helping::run_panel_with_help;
pub use laws::{
    bytes_decide_the_bounds, bytes_decide_the_verdicts, bytes_decide_what_is_told,
    not_everything_answers_or_refuses,
};
pub use running::run_panel;
pub use status::Status;
pub use telling::unread_line;
pub use words::files_of_words;
