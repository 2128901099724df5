//! A long file: the tables of many households in one, each with its table or the fault of that, told with its place in
//! the long file.
#![tactic(auto)]

mod columns;
mod fault;
mod goods;
mod groups;
mod headers;
mod households;
mod in_long_file;
mod laws;
mod read;

pub use fault::{IdFault, LongFault, Unnamed};
pub use households::Households;
pub use laws::each_record_stands_once;
pub use read::{read_long_records, read_panel};
