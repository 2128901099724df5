//! Certificates as JSON, both ways.
#![tactic(auto)]

mod certificate;
mod fault;
mod items;
mod laws;
mod levels;
mod reading;

pub use certificate::{certificate_value, write};
pub use fault::JsonFault;
pub use laws::{bytes_denote_one_certificate, what_is_written_is_read};
pub use reading::{read, read_certificate};
