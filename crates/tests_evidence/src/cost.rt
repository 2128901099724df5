//! Tests of technologies and outputs that are asked of them, from files and at their limits; of both axioms, and of the
//! bounds on what outputs cost with forged ones.

mod checks;
mod limits;
mod readers;
mod reports;
