//! What the axioms of production and the bounds on costs say of firms: by the inputs that suffice for outputs, and by
//! what is feasible. Laws alone, and no code.
#![tactic(auto)]

mod definitions;
mod laws;
mod sets;

pub use definitions::{
    production_sets_in_small_cases, rationalizing_sets_in_small_cases,
    requirement_sets_in_small_cases,
};
pub use laws::{
    cost_axiom_is_of_requirement_sets, cost_bounds_hold_for_requirement_sets,
    profit_axiom_is_of_production_sets,
};
pub use sets::InputSets;
