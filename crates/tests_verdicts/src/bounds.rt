//! Tests of demand at new prices and of the welfare bounds, on worked tables.

mod demands;
pub(crate) mod shared;
mod welfare;
