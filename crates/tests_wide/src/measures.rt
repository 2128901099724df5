//! Tests of the measures of a table: the greatest money pump ratio with forged evidence, the power of the test, and
//! what `run` prints of these and of cost.

mod behaviours;
mod costs;
mod forged_pumps;
mod halving;
mod power_counts;
mod powers;
mod pump_reports;
mod pumps;
