//! What the checker answers.
use rp_evidence::Reason;

/// The answer on a certificate: accepted, or its first item that fails, counted from 1, with the reason and the place.
/// 2^32 - 1 stands for that item or place and every greater one.
#[derive(Clone, Copy, Debug, PartialEq, Eq)]
pub enum Verdict {
    Accepted,
    Rejected {
        item: u32,
        reason: Reason,
        place: u32,
    },
}
