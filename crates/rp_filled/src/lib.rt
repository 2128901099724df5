//! What is withheld in a certificate or in bounds on costs, filled with what the searches past the widths find; what is
//! given stays as it is. Whatever is found passes the checker.
#![tactic(auto)]

mod certificate;
mod costs;
mod demand;
mod found;
mod welfare;

pub use certificate::{fill_certificate, fill_homothetic};
pub use costs::fill_costs;
