//! What choices spent of the budgets that were offered, where budget lines of two goods are told by their intercepts.
#![tactic(auto)]

mod arithmetic;
mod offered;

pub use offered::{Offered, Places, offered_of};
