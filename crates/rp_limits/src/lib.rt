//! The limits that a user meets, each stated once; a law in each module has their numbers.
#![tactic(auto)]

pub mod command_line;
pub mod generated;
pub mod long;
pub mod menu;
pub mod patch;
pub mod run;
pub mod table;
pub mod types;
pub mod walk;
