//! The row of a household: the verdicts on its table without their evidence, or the fault for which it has none; and
//! the text of a list of rows, as a table of comma-separated values.
#![tactic(auto)]

mod asked;
mod fault;
mod fields;
mod homothetic;
mod laws;
mod ratio;
mod row;
mod text;
mod verdict;
mod verdicts;

pub use asked::{Asked, Draws};
pub use fault::Fault;
pub use homothetic::{AsStated, HomotheticTest};
pub use laws::{floor_compares, floor_has_six_digits};
pub use ratio::Ratio;
pub use row::{Found, Row, verdict_row};
pub use text::panel_text;
pub use verdict::Verdict;
pub use verdicts::{Power, Verdicts};
