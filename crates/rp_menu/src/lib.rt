//! Choices from menus: what a file of them says, as the menus that were offered and the cells that were chosen
//! (stochastic choice after Block and Marschak 1960).
#![tactic(auto)]

mod cells;
mod fault;
mod laws;
mod menu_row;
mod menu_rows;
mod menu_texts;
mod menus;
mod read;

pub use fault::MenuFault;
pub use laws::files_never_denote_want_of_memory;
pub use menu_texts::has_letter;
pub use menus::Menus;
pub use read::read_menus;
