//! What a clause finds wrong, and numbers as findings give them.
ghost use Rattle.std.specs.Prelude.{◌≡◌, Err};
ghost use Rattle.rp_evidence.specs.Clauses.{cap, failure};

use crate::failure::{Failure, Reason};

/// A number as it is given: 2^32 - 1 stands for itself and every greater one.
pub fn cap(number: usize) -> u32
    ensures { result ≡ cap number }
{
    u32::try_from(number).unwrap_or(u32::MAX)
}

/// A failure for a reason, at a place.
pub fn fails(reason: Reason, place: usize) -> Result<(), Failure>
    ensures { result ≡ Err (failure reason place) }
{
    Err(Failure {
        reason,
        place: cap(place),
    })
}
