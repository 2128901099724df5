//! The check of a pair of a point and prices.
ghost use Rattle.std.specs.Prelude.{◌≡◌, ◌<◌, ◌↔◌, ℕ, pos, ◌*ℤ◌, ◌≤ℤ◌, IsTrue, All, length};
ghost use Rattle.std.specs.Prelude.{slice_index};
ghost use Rattle.rp_farkas.specs.Limits.{FitsEvidence};
ghost use Rattle.rp_farkas.specs.Listing.{IsListing, numerator_at};
ghost use Rattle.rp_farkas.specs.Point.{row_times};
ghost use Rattle.rp_farkas.specs.Prices.{column_times};
ghost use Rattle.rp_farkas.specs.PairCheck.{IsShownPair};

use crate::entry::{Entry, Pair};
use crate::listing::{EVIDENCE_WIDTH, all_fit, is_listing};
use crate::program::Lp;
use crate::sums::{column_sum, cost_sum, product, row_sum, value_sum};

/// Whether each row of A times the listed point is at most its right side, over the denominator.
pub fn rows_hold<P: Lp>(p: &P, den: u64, y: &[Entry]) -> bool
    requires den { FitsEvidence den }
    requires listed { IsListing (P.program p.now).cols y.now }
    ensures { IsTrue result ↔ ((i : ℕ) → i < (P.program p.now).rows
        → row_times (P.program p.now) i (numerator_at y.now)
        ≤ℤ ((P.program p.now).b i *ℤ pos den)) }
{
    for i in 0..p.rows() {
        if row_sum(p, i, y) > product(p.b(i), den) {
            return false;
        }
    }
    true
}

/// Whether each column of A times the prices is at least its objective, over the denominator.
fn columns_hold<P: Lp>(p: &P, den: u64, x: &[u64]) -> bool
    requires den { FitsEvidence den }
    requires rows { length x.now ≡ (P.program p.now).rows }
    requires fits { All FitsEvidence x.now }
    ensures { IsTrue result ↔ ((j : ℕ) → j < (P.program p.now).cols
        → ((P.program p.now).c j *ℤ pos den) ≤ℤ column_times (P.program p.now) j
        (slice_index x.now)) }
{
    for j in 0..p.cols() {
        if product(p.c(j), den) > column_sum(p, j, x) {
            return false;
        }
    }
    true
}

/// Whether the pair is written as a pair of this program is, and is an equal pair; no memory is taken.
pub fn check_pair<P: Lp>(p: &P, pair: &Pair) -> bool
    ensures { IsTrue result ↔ IsShownPair (P.program p.now) pair.now }
{
    let y = pair.y.as_slice();
    let x = pair.x.as_slice();
    if pair.den == 0 || pair.den > EVIDENCE_WIDTH || !is_listing(p.cols(), y) {
        return false;
    }
    if x.len() != p.rows() as usize || !all_fit(x) {
        return false;
    }
    rows_hold(p, pair.den, y) && columns_hold(p, pair.den, x) && value_sum(p, y) == cost_sum(p, x)
}
