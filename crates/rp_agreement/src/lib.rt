//! What the searches give passes the checker and is read back: nothing is found wrong with the evidence that the
//! program makes, and its numbers are within the limits of the JSON form, so that the text of a certificate denotes
//! that certificate.
#![tactic(auto)]

mod certificates;
mod laws;

pub use certificates::{
    accepted_is_not_rejected, accepted_is_not_rejected_on_patches, certificates_agree,
    random_certificates_agree, readable_texts_are_read_back,
};
pub use laws::{
    afriat_agrees, demand_agrees, efficiency_agrees, garp_agrees, homothetic_agrees,
    quasilinear_agrees, random_agrees, tables_are_limited, welfare_agrees,
};
