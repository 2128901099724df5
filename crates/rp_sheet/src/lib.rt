//! A sheet of numbers: its records, its columns by the form of its kind, its scaled numbers, and its first fault.
#![tactic(auto)]

mod columns;
mod fault;
mod fields;
mod file;
mod fixed_goods;
mod goods;
mod headers;
mod numbers;
mod record_kind;
mod records;
mod sheet;
mod sizes;

pub use columns::Columns;
pub use fault::TableFault;
pub use fields::NumberRecord;
pub use file::{FileKind, read_file, read_kind};
pub use fixed_goods::check_goods;
pub use goods::read_names;
pub use headers::read_columns;
pub use numbers::{column_numbers, narrow, numbers_under};
pub use record_kind::{RecordKind, read_records};
pub use records::Records;
pub use sheet::{Sheet, check_count, read_sheet};
pub use sizes::{places_of, read_sizes};
