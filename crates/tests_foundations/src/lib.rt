//! Tests of calls that no verdict is asked of: exact numbers, grids, the outside, and linear programs.
#![tactic(auto)]

#[cfg(test)]
mod calls;
#[cfg(test)]
mod checks;
#[cfg(test)]
mod failing_files;
#[cfg(test)]
mod grids;
#[cfg(test)]
mod numbers;
#[cfg(test)]
mod outside;
#[cfg(test)]
mod programs;
#[cfg(test)]
mod system;
