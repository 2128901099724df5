//! Whole numbers with a sign.
ghost use Rattle.std.specs.Prelude.{◌≡◌, ◌<◌, ◌≤◌, ◌^◌, ◌-ℤ◌, ◌*ℤ◌, pos, neg_ℤ, if◌then◌else◌, MatchOption};
ghost use Rattle.rp_two_words.specs.Words.{value_of};
ghost use Rattle.rp_whole_tableau.specs.Pivots.{HasNoQuotientBy, number_of};

use rp_two_words::TwoWords;
use std::cmp::Ordering;

/// A whole number with a sign and two words. A product that is 0 is not negative.
#[derive(Clone, Copy)]
pub struct Signed {
    negative: bool,
    size: TwoWords,
}

/// The product of two entries.
pub fn product(a: i128, b: i128) -> Signed
    ensures exact { number_of result ≡ a *ℤ b }
    ensures small { value_of result.size ≤ 2 ^ 254 }
{
    Signed {
        negative: (a < 0 && b > 0) || (a > 0 && b < 0),
        size: TwoWords::product(a.unsigned_abs(), b.unsigned_abs()),
    }
}

/// The least size of a number that is no entry.
const HALF: u128 = 1 << 127;

/// The difference of two products of entries.
pub fn difference(a: Signed, b: Signed) -> Signed
    requires first { value_of a.size ≤ 2 ^ 254 }
    requires second { value_of b.size ≤ 2 ^ 254 }
    ensures { number_of result ≡ number_of a -ℤ number_of b }
{
    if a.negative != b.negative {
        Signed {
            negative: a.negative,
            size: a.size.plus(b.size),
        }
    } else if a.size.cmp(b.size) == Ordering::Less {
        Signed {
            negative: !a.negative,
            size: b.size.minus(a.size),
        }
    } else {
        Signed {
            negative: a.negative,
            size: a.size.minus(b.size),
        }
    }
}

/// Whether one number is less than another.
pub fn is_less(a: Signed, b: Signed) -> bool {
    if a.negative != b.negative {
        return a.negative;
    }
    if a.negative {
        b.size.cmp(a.size) == Ordering::Less
    } else {
        a.size.cmp(b.size) == Ordering::Less
    }
}

/// An entry of this size, which is below 2^127.
fn entry_with(negative: bool, size: u128) -> i128
    requires { size < 2 ^ 127 }
    ensures { result ≡ if negative then neg_ℤ (pos size) else pos size }
{
    let entry = size as i128;
    if negative { -entry } else { entry }
}

/// The exact quotient as an entry; none where it is no whole number below 2^127.
pub fn entry_of(n: Signed, by: u128) -> Option<i128>
    requires positive { 1 ≤ by }
    requires small { by ≤ 2 ^ 127 }
    ensures { MatchOption result (HasNoQuotientBy by (number_of n))
        (λ entry. entry *ℤ pos by ≡ number_of n) }
{
    let size = n.size.exact_quotient(by)?;
    if size >= HALF {
        return None;
    }
    Some(entry_with(n.negative, size))
}
