//! Clauses of the checker on a table: closed walks, ranks, what steps lead to, new prices, bounds by a
//! linear program, and the tests of a table.
#![tactic(auto)]

pub mod afriat;
pub mod bits;
pub mod bound;
pub mod closure;
pub mod efficiency;
pub mod garp;
pub mod homothetic;
pub mod input;
pub mod prices;
pub mod quasilinear;
pub mod reach;
pub mod standard;
pub mod walk;
