//! What is asked of shares whatever their kinds: that their numbers fit, and their order.
ghost use Rattle.std.specs.Prelude.{◌≡◌, ◌<◌, ◌↔◌, All, IsTrue, length};
ghost use Rattle.std.specs.Cmp.Lexicographic.{slice_cmp};
ghost use Rattle.std.specs.Ordering.{nat_cmp};
ghost use Rattle.std.specs.declared.cmp.Ordering.TheVariants.{Less};
ghost use Rattle.rp_farkas.specs.Limits.{FitsEvidence};
ghost use Rattle.rp_evidence.specs.Clauses.{Unless};
ghost use Rattle.rp_patch.specs.KindFailure.{ComesInOrder, HasFitNumbers};

use rp_evidence::{Failure, Reason, Share, fails};
use rp_farkas::EVIDENCE_WIDTH;
use std::cmp::Ordering;

/// Whether the weight of each share is within the width.
fn shares_fit(shares: &[Share]) -> bool
    ensures { IsTrue result ↔ All (λ share. FitsEvidence share.weight) shares.now }
{
    for share in shares {
        if share.weight > EVIDENCE_WIDTH {
            return false;
        }
    }
    true
}

/// Whether each weight of a cell is within the width.
fn weights_fit(weights: &[u64]) -> bool
    ensures { IsTrue result ↔ All FitsEvidence weights.now }
{
    for weight in weights {
        if *weight > EVIDENCE_WIDTH {
            return false;
        }
    }
    true
}

/// Checks the denominator and all weights.
pub fn check_numbers(den: u64, shares: &[Share], weights: &[u64]) -> Result<(), Failure>
    ensures { Unless (HasFitNumbers den shares.now weights.now) Reason.Number 0 result }
{
    if den == 0 || den > EVIDENCE_WIDTH || !shares_fit(shares) || !weights_fit(weights) {
        return fails(Reason::Number, 0);
    }
    Ok(())
}

/// Whether one kind comes before another.
fn precedes(first: &[u32], second: &[u32]) -> bool
    ensures { IsTrue result ↔ (slice_cmp nat_cmp first.now second.now ≡ Less) }
{
    first.cmp(&second) == Ordering::Less
}

/// Whether share `k` is the first, or its kind comes after that of the share before it.
pub fn comes_in_order(shares: &[Share], k: usize) -> bool
    requires { k < length shares.now }
    ensures { IsTrue result ↔ ComesInOrder shares.now k }
{
    k == 0
        || precedes(
            shares[k - 1].patches.as_slice(),
            shares[k].patches.as_slice(),
        )
}
