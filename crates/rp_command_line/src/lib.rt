//! The command line: which words are taken, and the command with its files and numbers that they name.
#![tactic(auto)]

mod arguments;
mod commands;
mod line;
mod parser;

pub use arguments::Arguments;
pub use commands::{Command, FileSet, usage};
pub use line::{Line, read_line};
