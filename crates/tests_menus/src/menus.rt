//! Tests of choices from menus: what their files say and the units of their cells, and mixtures of strict orders with
//! forged evidence.

mod cases;
mod evidence;
mod faults;
mod forgeries;
mod found;
mod given;
mod limits;
mod menus;
mod reports;
mod sums;
mod units;
