//! Tests of revealed preference, steps, closures and shortest walks, at one level for all and at levels of the
//! observations' own; of verdicts on costs, with and without evidence, and of what they stand on: the axiom, Afriat
//! numbers and utilities, the index, and walks with totals; and of demand at new prices and
//! the welfare bounds.
#![tactic(auto)]

#[cfg(test)]
mod afriat;
#[cfg(test)]
mod bounds;
#[cfg(test)]
mod closure_levels;
#[cfg(test)]
mod closure_texts;
#[cfg(test)]
mod closures;
#[cfg(test)]
mod garp;
#[cfg(test)]
mod indices;
#[cfg(test)]
mod own_levels;
#[cfg(test)]
mod shared;
#[cfg(test)]
mod walks;
