//! Certificates on goodness of fit as JSON, both ways.
#![tactic(auto)]

mod certificate;
mod items;
mod laws;
mod reading;

pub use certificate::{fit_value, write_fit};
pub use laws::{bytes_denote_one_fit, what_is_written_of_fit_is_read};
pub use reading::{read_fit, read_fit_value};
