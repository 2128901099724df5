//! Random choices from budgets as patches with units (Kitamura and Stoye 2018), and what random utility means over
//! them.
#![tactic(auto)]

pub mod apportionment;
mod cells;
mod chosen;
mod fault;
mod laws;
pub mod of_choices;
pub mod partial_type;
mod patch_list;
mod portion;
mod sets;
mod signs;
mod tally;
mod totals;
mod weights;

pub use apportionment::apportion;
pub use cells::CellUnits;
pub use fault::{ApportionFault, PatchFault};
pub use laws::{
    patches_are_determined, patches_are_numbered_by_first_choice,
    patches_without_units_change_nothing,
};
pub use patch_list::Patches;
pub use weights::{weight_of_shares, weight_of_units};
