//! Whole numbers of two words of 128 bits: products of entries below 2^127, their sums and differences, and exact
//! quotients by one word.
#![tactic(auto)]

mod long_division;
mod two_words;

pub use two_words::TwoWords;
