//! The greatest common divisor of a tableau after a pivot. Each of its numbers is a sum of its multipliers by whole
//! numbers, so that the divisor of the multipliers is that of the tableau.
ghost use Prim.Native.Nat.{◌∣◌};
ghost use Rattle.std.specs.Prelude.{◌≡◌, ℕ, ◌^◌, ◌<◌, ◌≤◌, pos, ◌-ℤ◌, ◌*ℤ◌};
ghost use Rattle.std.specs.Int.RustNames.{unsigned_abs};
ghost use Rattle.rp_farkas.specs.Limits.{FitsEvidence};
ghost use Rattle.rp_simplex.specs.Pivot.{DividesAll};
ghost use Rattle.rp_simplex.specs.InnerStage.{DividesMoved, DividesRenewed, exact};
ghost use Rattle.rp_simplex.specs.InnerRows.{moved};

use crate::stage::{Stage, product};
use rp_num::gcd;

/// The difference of two products.
fn difference(a: i128, b: i128) -> i128
    requires first { unsigned_abs a < 2 ^ 126 }
    requires second { unsigned_abs b < 2 ^ 126 }
    ensures value { result ≡ a -ℤ b }
    ensures fits { unsigned_abs result < 2 ^ 127 }
{
    a - b
}

/// The difference of the products of two numbers each.
pub fn difference_of_products(a: i64, b: i64, c: i64, d: i64) -> i128
    requires a { FitsEvidence (unsigned_abs a) }
    requires b { FitsEvidence (unsigned_abs b) }
    requires c { FitsEvidence (unsigned_abs c) }
    requires d { FitsEvidence (unsigned_abs d) }
    ensures value { result ≡ a *ℤ b -ℤ c *ℤ d }
    ensures fits { unsigned_abs result < 2 ^ 127 }
{
    difference(product(a, b), product(c, d))
}

/// The multiplier in row i and place s after the pivot in row r, before the common divisor is taken out. Row i has
/// `factor` in the pivot's column, where row r has `pivot`.
fn moved_multiplier(t: &Stage, r: usize, pivot: i64, i: usize, factor: i64, s: usize) -> i128
    requires pivot_row { r < t.now.rows }
    requires pivot { FitsEvidence (unsigned_abs pivot) }
    requires row { i ≤ t.now.rows }
    requires factor { FitsEvidence (unsigned_abs factor) }
    requires place { s ≤ t.now.rows }
    ensures value { result ≡ moved t.now.multipliers t.now.den r pivot i factor s }
    ensures fits { unsigned_abs result < 2 ^ 127 }
{
    if i == r {
        product(t.multiplier(r, s), t.den as i64)
    } else {
        difference_of_products(t.multiplier(i, s), pivot, factor, t.multiplier(r, s))
    }
}

/// The greatest common divisor of the divisor so far and the multipliers of row i; 1 ends the search.
fn divisor_with_row(t: &Stage, r: usize, pivot: i64, i: usize, factor: i64, so_far: u128) -> u128
    requires pivot_row { r < t.now.rows }
    requires pivot { FitsEvidence (unsigned_abs pivot) }
    requires row { i ≤ t.now.rows }
    requires factor { FitsEvidence (unsigned_abs factor) }
    requires positive { 0 < so_far }
    ensures positive { 0 < result }
    ensures divides { result ∣ so_far }
    ensures divides_row { DividesMoved t.now r pivot i factor result }
    ensures greatest { (k : ℕ) → k ∣ so_far → DividesMoved t.now r pivot i factor k → k ∣ result }
{
    let mut divisor = so_far;
    for s in 0..t.rows + 1 {
        if divisor == 1 {
            return 1;
        }
        divisor = gcd(
            divisor,
            moved_multiplier(t, r, pivot, i, factor, s).unsigned_abs(),
        );
    }
    divisor
}

/// The greatest common divisor of the new denominator and all new numerators.
pub fn common_divisor(t: &Stage, r: usize, c: usize, den: u128) -> u128
    requires pivot_row { r < t.now.rows }
    requires pivot_column { c < t.now.width }
    requires den { pos den ≡ pos t.now.den *ℤ (exact t.now).at r c }
    requires positive { 0 < den }
    ensures positive { 0 < result }
    ensures divides { result ∣ den }
    ensures divides_all { DividesAll t.now.rows t.now.width (exact t.now) r c result }
    ensures divides_multipliers { DividesRenewed t.now r c result }
    ensures greatest { (k : ℕ) → DividesAll t.now.rows t.now.width (exact t.now) r c k
        → k ∣ result }
{
    let pivot = t.entry(r, c);
    let mut divisor = den;
    for i in 0..t.rows + 1 {
        divisor = divisor_with_row(t, r, pivot, i, t.entry(i, c), divisor);
    }
    divisor
}
