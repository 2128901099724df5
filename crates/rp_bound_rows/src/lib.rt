//! The bounds of a household at new prices, on demand or on the money metric, as lines of a table; and the text of them,
//! as comma-separated values.
#![tactic(auto)]

mod amount;
mod asked;
mod demand;
mod fault;
mod fields;
mod laws;
mod line;
mod price_places;
mod row;
mod search;
mod side;
mod welfare;
mod writer;

pub use amount::Amount;
pub use asked::BoundsAsked;
pub use fault::BoundFault;
pub use laws::ceiling_compares;
pub use line::Line;
pub use row::{BoundRow, Bounds, FoundBounds, bound_row};
pub use search::{AsStated, BoundSearch};
pub use side::{Side, Sides};
pub use writer::{RowWriter, start_rows};
