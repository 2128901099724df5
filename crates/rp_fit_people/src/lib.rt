//! What evidence on goodness of fit says of people: of those whose preferences rationalize the observations that are
//! kept, or all observations where each is held to a level of its own. No code.
#![tactic(auto)]

mod kept;
mod levels;

pub use kept::{kept_observations_are_rationalized, no_preference_keeps_more};
pub use levels::{accepted_levels_speak_of_people, rationalized_at_levels};
