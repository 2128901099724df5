//! What is printed of a long file and a file of new prices: the lines of bounds of each household, in the order of their
//! first records, and one for each record that is refused for its id.
#![tactic(auto)]

mod laws;
mod rows;

pub use laws::panels_decide_the_bounds;
pub use rows::write_bounds;
