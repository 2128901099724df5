//! Natural numbers of many words of 64 bits: products by one word, and their order. No memory is taken.
#![tactic(auto)]

mod order;
mod product;

pub use order::is_at_most;
pub use product::multiply;
