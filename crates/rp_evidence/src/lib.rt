//! The evidence that a verdict comes with, and the definitions that every verdict is judged by.
#![tactic(auto)]

mod afriat;
mod afriat_laws;
mod certificate;
mod demand;
mod demand_laws;
mod efficiency;
mod efficiency_laws;
mod failure;
mod finding;
mod garp;
mod homothetic;
mod laws;
mod level;
mod quasilinear;
mod random;
mod relations;
mod round_laws;
mod value_laws;
mod welfare_laws;

pub use afriat::{AfriatPart, MULTIPLIER_WIDTH, Numbers, UTILITY_WIDTH};
pub use afriat_laws::{
    affordable_utilities, afriat_without_levels, bundles_have_one_utility,
    fitting_numbers_pass_nowhere, models_exclude_violations, models_exist, observed_utilities,
    standard_numbers_are_a_model, standard_numbers_are_unique, standard_numbers_exist,
    width_is_passed_first_once,
};
pub use certificate::{Certificate, Item, Kind, withheld};
pub use demand::{Bound, DemandPart, GoodBounds, Point, WelfarePart};
pub use demand_laws::{
    equal_pairs_bound_goods, inner_demands_exist, inner_demands_support, mixtures_support,
    strictly_below_from_strict_starts, supporting_demands_cost_enough,
};
pub use efficiency::Efficiency;
pub use efficiency_laws::{efficiency_index_is_threshold, efficiency_index_is_unique};
pub use failure::{Failure, Reason};
pub use finding::{cap, fails};
pub use garp::Garp;
pub use homothetic::Homothetic;
pub use laws::{
    counts_are_unique, counts_respect, evidence_depends_on_observations,
    evidence_depends_on_observed_costs, no_levels_are_level_one,
    ordering_ranks_exclude_violations_below, ranks_exclude_violations, step_counts_order,
    strict_is_weak, violations_by_places, violations_have_walk_and_strict_step,
    violations_last_above, violations_turn, walk_and_strict_step_violate,
    weak_cycles_violate_above, weak_to_itself,
};
pub use level::Level;
pub use quasilinear::Quasi;
pub use random::{RandomPart, Share};
pub use relations::{Preference, Relation};
pub use round_laws::{rounds_find_what_is_reached, unions_have_bits_of_both};
pub use value_laws::{bound_products_meet_homothetic_test, bound_steps_meet_quasilinear_test};
pub use welfare_laws::{
    equal_pairs_bound_welfare, reaching_bundles_are_in_region, welfare_bounds_hold,
    welfare_evidence_holds_in_every_model, welfare_programs_are_bounded,
};
