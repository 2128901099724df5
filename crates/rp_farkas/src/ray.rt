//! The check of a ray.
ghost use Rattle.std.specs.Prelude.{◌<◌, ◌↔◌, ℕ, pos, ◌≤ℤ◌, IsTrue};
ghost use Rattle.rp_farkas.specs.Listing.{IsListing, numerator_at};
ghost use Rattle.rp_farkas.specs.Point.{row_times};
ghost use Rattle.rp_farkas.specs.PairCheck.{IsShownRay};

use crate::entry::Entry;
use crate::listing::{EVIDENCE_WIDTH, is_listing};
use crate::pair::rows_hold;
use crate::program::Lp;
use crate::sums::{row_sum, value_sum};
use rp_num::Seq;

/// Whether no row of A times the listed direction is positive.
fn no_row_rises<P: Lp>(p: &P, ray: &[Entry]) -> bool
    requires { IsListing (P.program p.now).cols ray.now }
    ensures { IsTrue result ↔ ((i : ℕ) → i < (P.program p.now).rows
        → row_times (P.program p.now) i (numerator_at ray.now) ≤ℤ pos 0) }
{
    for i in 0..p.rows() {
        if row_sum(p, i, ray) > 0 {
            return false;
        }
    }
    true
}

/// Whether `point` is feasible and `ray` truly a ray of this program, both written over `den` as its points and rays
/// are; no memory is taken.
pub fn check_ray<P: Lp>(p: &P, den: u64, point: &Seq<Entry>, ray: &Seq<Entry>) -> bool
    ensures { IsTrue result ↔ IsShownRay (P.program p.now) den point.now ray.now }
{
    let point = point.as_slice();
    let ray = ray.as_slice();
    if den == 0
        || den > EVIDENCE_WIDTH
        || !is_listing(p.cols(), point)
        || !is_listing(p.cols(), ray)
    {
        return false;
    }
    rows_hold(p, den, point) && no_row_rises(p, ray) && value_sum(p, ray) > 0
}
