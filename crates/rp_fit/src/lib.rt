//! How far choices are from rational choice: the definitions of indices of goodness of fit, laws on them, and the types
//! of evidence.
#![tactic(auto)]

mod homothetic_level;
mod item;
mod kept;
mod laws;
mod levels;
mod pump;
mod quasilinear_level;
mod steps;
mod violations;
mod weighted;

pub use homothetic_level::HomotheticLevelPart;
pub use item::FitItem;
pub use kept::{Group, GroupKind, KeptPart};
pub use laws::{
    houtman_maks_index_is_unique, least_steps_cost_is_unique, quasilinear_levels_are_equal,
    violating_pairs_have_one_number,
};
pub use levels::{Lack, LevelsPart};
pub use pump::PumpPart;
pub use quasilinear_level::QuasilinearLevelPart;
pub use steps::StepsPart;
pub use violations::ViolationsPart;
pub use weighted::WeightedWalk;
