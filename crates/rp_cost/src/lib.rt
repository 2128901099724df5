//! Production: whether observed inputs minimise cost or maximise profit, and what an output costs at new prices
//! (Varian 1984, "The Nonparametric Approach to Production Analysis").
#![tactic(auto)]

mod asked;
mod asked_file;
mod axioms;
mod bounds;
mod check;
mod listed;
mod lower;
mod question;
mod report;
mod tech;
mod tech_file;
mod upper;

pub use asked::Asked;
pub use asked_file::{AskedFile, read_asked};
pub use axioms::{Axiom, cost_axiom, profit_axiom};
pub use bounds::{CostBounds, cost_bounds};
pub use check::check_cost;
pub use report::report_cost;
pub use rp_sheet::TableFault;
pub use tech::Tech;
pub use tech_file::{TechFile, read_tech};
pub use upper::Upper;
