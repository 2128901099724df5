//! Least totals over walks, round by round, for every kind of total.
#![tactic(auto)]

mod cycle;
mod laws;
mod outcome;
mod round;
mod settling;
mod total;

pub use laws::{
    least_totals_leave_no_fall, long_walk_holds_closed_part, one_cycle_is_cut_from_rounds,
};
pub use outcome::Settled;
pub use settling::settle;
pub use total::Total;
