//! What each command answers to its input: a module a command, and one for what they share.
#![tactic(auto)]

mod analysis;
mod answer;
mod by_costs;
mod check;
mod choice_limits;
mod cost;
mod demand;
mod edition;
mod laws;
mod menus;
mod pairs;
mod patches;
mod power;
mod pump;
mod random;
mod shared;
mod status;
mod trial;
mod utility;
mod welfare;

pub use analysis::{analyse, analysis_text};
pub use answer::Answer;
pub use check::{check_answer, check_random_answer};
pub use choice_limits::ChoiceLimits;
pub use cost::cost_text;
pub use demand::demand_text;
pub use edition::{AsStated, Edition};
pub use laws::choices_in_files_are_full;
pub use menus::menus_text;
pub use pairs::pairs_text;
pub use patches::patches_text;
pub use power::power_text;
pub use pump::pump_text;
pub use random::random_text;
pub use shared::report_or_json;
pub use status::Status;
pub use trial::{Verdicts, report_trial, trial_table, trial_text};
pub use utility::utility_text;
pub use welfare::welfare_text;
