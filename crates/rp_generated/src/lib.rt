//! Random utility by generated types: types that are too light by the prices so far are added to a program, until there
//! is none, so all rational types need never be listed (Smeulders, Cherchye and De Rock 2021). What is found is given
//! only where the checker takes it.
#![tactic(auto)]

mod compatible;
mod generated_verdict;
mod lightest;
mod looked;
mod parts;
mod plain;
mod prices;
mod rounds;

pub use generated_verdict::{SEARCH_STEPS, generated};
