//! The words of these tests.
/// The words over budgets and choices, and over a certificate of them.
pub(crate) const RANDOM: &[&str] = &["rp", "random", "b.csv", "c.csv"];

pub(crate) const CHECKED: &[&str] = &["rp", "checkrandom", "b.csv", "c.csv", "v.json"];

/// What a check prints of a certificate that it accepts.
pub(crate) const ACCEPTED: &str = "accepted items 1 withheld 0\n";
