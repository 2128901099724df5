//! The top of the suite: what a command line answers, from the words and the files that they name.
#![tactic(auto)]

mod answer;
mod by_command;
mod contents;
mod fault_text;
mod faults;
mod files;
mod laws;
mod patches;
mod running;
mod tables;
mod telling;
mod told;
mod units;

pub use files::Cause;
pub use laws::{
    bytes_denote_one_input_or_refusal, listed_choices_are_denoted_alike,
    patches_are_of_choices_in_files,
};
pub use patches::patches_by;
pub use rp_answers::{Status, trial_table};
pub use running::run_edition;
