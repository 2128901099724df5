//! Tests of patches, units of groups, the rational types and their mixtures: worked budgets and choices, the limits on
//! both sides of each, and the texts of the faults; and of evidence on random choices: its reports, and forged
//! evidence, each with the clause that it fails first.

mod apportioned;
mod faults;
mod forged;
mod forgeries;
mod generated;
mod limits;
mod many;
mod mixtures;
mod reports;
mod rows;
mod steps;
mod told;
