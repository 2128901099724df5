//! The checker of evidence on goodness of fit, over sets and pairs of observations: a function for each item, by plain
//! loops over the costs. No memory is taken.
#![tactic(auto)]

mod kept;
mod kept_bound;
mod kept_groups;
mod kept_set;
mod pair_counts;
mod pairs;
mod violations;

pub use kept::check_kept;
pub use violations::{check_violations, count_violations};
