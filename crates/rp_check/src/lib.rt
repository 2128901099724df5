//! The checker: whether a certificate's evidence proves its verdicts, from the input alone. It takes no memory.
#![tactic(auto)]

mod certificate;
mod demand;
mod item;
mod levels;
mod random;
mod sets;
mod verdict;
mod welfare;

pub use certificate::check;
pub use random::{check_random, check_random_within};
pub use rp_evidence::Reason;
pub use verdict::Verdict;
