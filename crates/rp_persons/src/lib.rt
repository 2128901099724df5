//! What random choices say of people: a mixture of rational types is one of persons with preferences over bundles of
//! fractions. Laws alone, and no code.
#![tactic(auto)]

mod laws;
mod relations;

pub use laws::{
    chosen_bundles_scale, greatest_shares_are_of_persons, mixtures_are_of_persons,
    proved_random_items_say,
};
pub use relations::PersonRelations;
