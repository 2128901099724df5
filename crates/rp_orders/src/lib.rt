//! Mixtures of strict orders over menus (Block and Marschak 1960): one that makes the choices, or weights of the cells
//! that show there is none, and a check of either that walks all orders and takes no memory.
#![tactic(auto)]

mod check;
mod choosers;
mod least;
mod listed;
mod lists;
mod menus_verdict;
mod orders;
mod picks;
mod report;
mod sums;

pub use check::check_menu;
pub use menus_verdict::menus;
pub use report::report_menus;
pub use rp_evidence::RandomPart as MenuPart;
pub use sums::{is_complete, menu_sum};
