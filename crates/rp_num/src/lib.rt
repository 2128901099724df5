//! The types and exact numbers that every crate of the suite shares.
#![tactic(auto)]

mod decimal;
mod divisor;
mod frac;
mod laws;
mod list;
mod order;
mod print;
mod read;

pub use decimal::{Decimal, NumFault, read_decimal};
pub use divisor::{gcd, in_lowest_terms};
pub use frac::{FRACTION_WIDTH, Frac};
pub use laws::{cross_products_decide, lowest_terms_are_unique, lowest_terms_decide_width};
pub use list::Seq;
pub use order::cmp_products;
pub use print::{print_frac, print_u128};
pub use read::{read_frac, read_i128, read_u128};
use std::alloc::{AllocError, AllocFailed};

/// Memory ran out. No clause says when, so contracts leave this answer free; tests call what takes memory with memory
/// to spare, and there it does not come.
#[derive(Clone, Copy, Debug, PartialEq, Eq)]
pub struct NoMemory;

/// A number passes the width that its type has.
#[derive(Clone, Copy, Debug, PartialEq, Eq)]
pub struct Wide;

impl From<AllocError> for NoMemory {
    fn from(_error: AllocError) -> NoMemory {
        NoMemory
    }
}

impl<T: Drop> From<AllocFailed<T>> for NoMemory {
    fn from(_error: AllocFailed<T>) -> NoMemory {
        NoMemory
    }
}
