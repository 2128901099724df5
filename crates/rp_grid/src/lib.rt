//! A grid of rows of equal length in one block of memory, of which two rows can be used at once.
#![tactic(auto)]

mod block;
mod grid;
mod two;

pub use grid::Grid;
pub use two::Two;
