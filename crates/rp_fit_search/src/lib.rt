//! Searches for evidence on goodness of fit: the largest consistent sets, levels of the observations' own, and the least
//! cost of strict steps. Whatever is found is given only where the checker takes it.
#![tactic(auto)]

mod arrange;
mod cheapest;
mod found;
mod graph;
mod kept;
mod kept_alone;
mod kept_groups;
mod kept_rounds;
mod kept_set;
mod kinds;
mod levels;
mod levels_by_ranks;
mod looks;
mod order;
mod packing;
mod preference;
mod rounds;
mod rows;
mod shortest;
mod steps;
mod steps_by_ranks;

pub use kept::search_kept;
pub use levels::search_levels;
pub use looks::Looks;
pub use steps::search_steps;
