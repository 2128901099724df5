//! The order of two products of 128 bits each.
ghost use Rattle.std.specs.Prelude.{◌≡◌, ◌*◌};
ghost use Rattle.std.specs.Ordering.{nat_cmp};

use std::cmp::Ordering;

/// The order of `a * b` and `c * d`, which may have 256 bits.
pub fn cmp_products(a: u128, b: u128, c: u128, d: u128) -> Ordering
    ensures { result ≡ nat_cmp (a * b) (c * d) }
{
    let (left_low, left_high) = a.carrying_mul(b, 0);
    let (right_low, right_high) = c.carrying_mul(d, 0);
    if left_high == right_high {
        left_low.cmp(&right_low)
    } else {
        left_high.cmp(&right_high)
    }
}
