//! What a file of numbers denotes, or its first fault: tables, and the files that are read beside them.
#![tactic(auto)]

mod budgets;
mod bundles;
mod choices;
mod plain;
mod priced;
mod prices;
mod tables;

pub use budgets::{BudgetsFile, read_budgets};
pub use bundles::{BundlesFile, read_bundles};
pub use choices::{ChoicesFile, read_choices};
pub use plain::plain_tables;
pub use priced::priced_table;
pub use prices::{PricesFile, read_prices};
pub use rp_sheet::TableFault;
pub use tables::{TableFile, read_table, read_table_of};
