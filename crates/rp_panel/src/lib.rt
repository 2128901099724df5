//! What is printed of a long file: a row for each household, in the order of their first records, and one for each record
//! that is refused for its id.
#![tactic(auto)]

mod offered;
mod rows;

pub use rows::write_panel;
