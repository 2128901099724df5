//! Products that are rounded down.
ghost use Rattle.std.specs.Prelude.{◌≡◌, ◌*◌, ◌^◌, ◌<◌, ◌≤◌, IfSome, IsTrue};
ghost use Rattle.rp_num.specs.Fraction.{FitsTerm};
ghost use Rattle.rp_rounded.specs.Rounded.{IsKeptOrRounded, IsRoundedDown};

use crate::leading::first_digits;
use crate::shortened::{over_twos, without_twos};
use rp_num::{FRACTION_WIDTH, Frac, cmp_products};
use std::cmp::Ordering;

/// Both parts of a fraction that stays as it is are below this.
const SHORT: u128 = 1 << 60;

/// The fraction times `across/own`, rounded down to 60 binary digits. None where the denominator would reach 2^120.
fn rounded_down(v: Frac, across: u64, own: u64) -> Option<Frac>
    requires own { 1 ≤ own }
    requires below { own < 2 ^ 51 }
    ensures { IfSome result (IsRoundedDown (v.num * across) (v.den * own)) }
{
    let short = without_twos(v.den())?;
    let num = part_times(v.num(), across)?;
    let first = first_digits(num, short.part * u128::from(own))?;
    over_twos(first.lead, first.places + short.twos)
}

/// The fraction times `across/own`: itself where both its parts in lowest terms are short, else rounded down. None
/// where the denominator would reach 2^120.
pub fn short_product(v: Frac, across: u64, own: u64) -> Option<Frac>
    requires own { 1 ≤ own }
    requires below { own < 2 ^ 51 }
    ensures { IfSome result (IsKeptOrRounded (v.num * across) (v.den * own)) }
{
    match v.times(across, own) {
        Ok(product) => {
            if product.num() < SHORT && product.den() < SHORT {
                Some(product)
            } else {
                rounded_down(v, across, own)
            }
        }
        Err(_) => rounded_down(v, across, own),
    }
}

/// Whether the product of `a` and `b` is at least that of `c` and `d`.
fn is_no_less(a: u128, b: u128, c: u128, d: u128) -> bool
    ensures { IsTrue result → c * d ≤ a * b }
{
    cmp_products(a, b, c, d) != Ordering::Less
}

/// A part of a fraction times a cost, where that is within the width.
fn part_times(part: u128, cost: u64) -> Option<u128>
    ensures value { IfSome result (λ p. p ≡ part * cost) }
    ensures fits { IfSome result FitsTerm }
{
    match part.checked_mul(u128::from(cost)) {
        Some(p) if p <= FRACTION_WIDTH => Some(p),
        _ => None,
    }
}

/// Whether `v_num * across / (v_den * own)` is not less than `best_num / best_den` and one part in 2^52 more.
fn parts_are_no_less(v: (u128, u128), across: u64, own: u64, best: (u128, u128)) -> bool
    ensures { IsTrue result → best.0 * (v.1 * own) ≤ (v.0 * across) * best.1 }
{
    let Some(left) = part_times(v.0, across) else {
        return false;
    };
    let Some(right) = part_times(best.0, own) else {
        return false;
    };
    let more = right + right / (1 << 52) + 1;
    is_no_less(left, best.1, more, v.1)
}

/// Whether the fraction times `across/own` is so far from being less than `best` that rounding down does not make it
/// less either.
pub fn is_clearly_no_less(v: Frac, across: u64, own: u64, best: Frac) -> bool
    ensures { IsTrue result → best.num * (v.den * own) ≤ (v.num * across) * best.den }
{
    parts_are_no_less((v.num(), v.den()), across, own, (best.num(), best.den()))
}
