//! Tests of `run_panel` and of the calls of panels: words and the files that they name, files that are refused or fail,
//! columns that are left out, what `--wide` fills, bounds at new prices, what choices spent of offered budgets, and each ending.
#![tactic(auto)]

#[cfg(test)]
mod bounds;
#[cfg(test)]
mod calls;
#[cfg(test)]
mod files;
#[cfg(test)]
mod helping;
#[cfg(test)]
mod household_faults;
#[cfg(test)]
mod intercepts;
#[cfg(test)]
mod names;
#[cfg(test)]
mod order;
#[cfg(test)]
mod running;
#[cfg(test)]
mod words;
