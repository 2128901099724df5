//! How reports are written: numbers, lists, fractions, bounds, mixtures and lines, for every crate that prints one.
//!
//! A function `push_..` appends to a text; after `NoMemory` a part of what it appends may stand there.
#![tactic(auto)]

mod bound;
mod entry;
mod head;
mod laws;
mod line;
mod list;
mod mixture;
mod quotient;

pub use bound::{PointEntry, push_bound, push_bounds, push_pair_line};
pub use entry::{Fraction, LongNumber, Number, Ordinal, Print, Signed};
pub use head::push_head;
pub use laws::euclid_gives_lowest_terms;
pub use line::{push_after, push_fraction_line, push_line, push_number_line};
pub use list::{
    push_fractions, push_list, push_long_numbers, push_numbers, push_numbers_over, push_ordinals,
    push_sums,
};
pub use mixture::{push_apportioned, push_mixture, push_violation};
pub use quotient::lowest_terms;
