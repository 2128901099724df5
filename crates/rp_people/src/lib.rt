//! What the verdicts on a table say of people: of consumers, by their preferences and utilities over bundles of
//! fractions. Laws alone, and no code.
#![tactic(auto)]

mod axiom;
mod bounds;
mod homothetic;
mod quasilinear;
mod relations;
mod says;
mod tables;

pub use axiom::{
    axiom_gives_utility, models_give_utilities, monotone_preferences_are_nonsatiated,
    preferences_meet_axiom, utilities_are_preferences,
};
pub use bounds::{supporting_demands_are_bought, welfare_bounds_hold_for_people};
pub use homothetic::{
    homogeneous_utilities_are_homothetic, homothetic_preferences_meet_test,
    homothetic_test_gives_utility,
};
pub use quasilinear::{quasilinear_test_gives_worth, worths_meet_quasilinear_test};
pub use relations::BundleRelation;
pub use says::{proved_certificates_say, proved_items_say};
pub use tables::{
    contradicting_pairs_survive_no_preference, index_divides_levels,
    models_of_tables_give_utilities, rationalized_at_level, rationalized_by_levels,
    tables_are_full,
};
