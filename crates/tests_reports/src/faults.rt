//! Tests of `run` over an outside that gives and takes in pieces, one that fails at each of its calls in turn, and one
//! that never fails; over each front of a file; and of the statuses.

mod choices;
mod commands;
mod failures;
mod fronts;
mod measures;
mod order;
mod sure;
