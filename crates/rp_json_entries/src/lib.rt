//! Notations of the entries of certificates as JSON: numbers, observations, fractions, lists, names, and the members of
//! an object.
#![tactic(auto)]

pub mod fields;
pub mod lists;
pub mod named;
pub mod notation;
pub mod numbers;
pub mod objects;
