//! Tests of what `run` prints: the reports of each command on worked tables, on tables of the most observations and
//! the greatest numbers, on tables with levels of observations, and of trials. Of how its reads and writes fail, and of
//! the calls for C.
#![tactic(auto)]

#[cfg(test)]
mod analyses;
#[cfg(test)]
mod bounds;
#[cfg(test)]
mod call;
#[cfg(test)]
mod faults;
#[cfg(test)]
mod greatest;
#[cfg(test)]
mod levels;
#[cfg(test)]
mod long_tables;
#[cfg(test)]
mod pairs;
#[cfg(test)]
mod trials;
#[cfg(test)]
mod utility;
