//! The stated edition of the program, which prints what is stated and withholds what passes the stated widths.
#![tactic(auto)]

mod running;
mod sure;

pub use rp_commands::Status;
pub use running::run;
pub use sure::run_surely;
