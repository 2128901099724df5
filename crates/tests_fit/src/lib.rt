//! Tests of goodness of fit: evidence that the checker accepts and forged evidence, what searches find, certificates
//! as JSON, reports, the program over files in memory, and its call.
#![tactic(auto)]

#[cfg(test)]
mod calls;
#[cfg(test)]
mod directly;
#[cfg(test)]
mod forged;
#[cfg(test)]
mod many;
#[cfg(test)]
mod programs;
#[cfg(test)]
mod reading;
#[cfg(test)]
mod refused;
#[cfg(test)]
mod searches;
#[cfg(test)]
mod steps;
#[cfg(test)]
mod verdicts;
#[cfg(test)]
mod worked;
