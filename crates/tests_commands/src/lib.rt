//! Tests of certificates as JSON, and of `run`: certificates on a table, words that it takes or answers by the usage, and
//! files that it refuses.
#![tactic(auto)]

#[cfg(test)]
mod certificates;
#[cfg(test)]
mod refusals;
