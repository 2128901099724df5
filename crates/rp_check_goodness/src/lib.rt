//! The checker of a certificate on goodness of fit: its items, each in turn, by the check of its kind. It stands on no
//! crate that computes an index, and no memory is taken.
#![tactic(auto)]

mod certificate;

pub use certificate::check_fit;
