//! Tests of the checkers: forged evidence on the tests of a table and on bounds of demand and welfare; and technologies,
//! with evidence on both axioms and on what outputs cost.
#![tactic(auto)]

#[cfg(test)]
mod checker;
#[cfg(test)]
mod cost;
