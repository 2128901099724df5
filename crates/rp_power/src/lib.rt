//! The power of the test of the generalized axiom of revealed preference: how many random behaviours on the budgets
//! of a table fail it (Bronars 1987, "The Power of Nonparametric Tests of Preference Maximization", Econometrica). And the generator of a
//! seed with its words, one after another, for every crate that draws.
#![tactic(auto)]

mod behaviour;
mod contradiction;
mod count;
mod report;
mod shares;
mod spending;
mod words;

pub use behaviour::{copy_names, copy_prices, drawn};
pub use count::{power, quantities_fail};
pub use report::report_power;
pub use shares::leave_not_all_zero;
pub use words::{draw, generator};
