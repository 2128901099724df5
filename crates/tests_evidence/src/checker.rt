//! Tests of the checker on the tests of a table and on bounds of demand and welfare: forged evidence, each with the
//! clause that it fails first.

mod bound;
mod bounds;
mod cases;
mod forged;
mod items;
mod totals;
mod verdicts;
