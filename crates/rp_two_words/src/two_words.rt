//! Numbers of two words of 128 bits.
ghost use Rattle.std.specs.Prelude.{◌≡◌, ◌+◌, ◌*◌, ◌^◌, ◌<◌, ◌≤◌};
ghost use Rattle.std.specs.Ordering.{nat_cmp};
ghost use Rattle.rp_two_words.specs.Quotients.{IsExactQuotient};
ghost use Rattle.rp_two_words.specs.Words.{value_of};

use crate::long_division::long_quotient;
use std::cmp::Ordering;

/// The number `high * 2^128 + low`.
#[derive(Clone, Copy, Debug, PartialEq, Eq)]
pub struct TwoWords {
    pub high: u128,
    pub low: u128,
}

impl TwoWords {
    /// The product of two words.
    pub fn product(a: u128, b: u128) -> TwoWords
        ensures { value_of result ≡ a * b }
    {
        let (low, high) = a.carrying_mul(b, 0);
        TwoWords { high, low }
    }

    /// The sum of two numbers below 2^255, as products of two entries below 2^127 are.
    pub fn plus(self, other: TwoWords) -> TwoWords
        requires first { self.high < 2 ^ 127 }
        requires second { other.high < 2 ^ 127 }
        ensures { value_of result ≡ value_of self + value_of other }
    {
        let (low, carried) = self.low.overflowing_add(other.low);
        if carried {
            TwoWords {
                high: self.high + other.high + 1,
                low,
            }
        } else {
            TwoWords {
                high: self.high + other.high,
                low,
            }
        }
    }

    /// The difference of a number and one that is not greater.
    pub fn minus(self, other: TwoWords) -> TwoWords
        requires { value_of other ≤ value_of self }
        ensures { value_of result + value_of other ≡ value_of self }
    {
        if other.low <= self.low {
            TwoWords {
                high: self.high - other.high,
                low: self.low - other.low,
            }
        } else {
            TwoWords {
                high: self.high - other.high - 1,
                low: u128::MAX - other.low + self.low + 1,
            }
        }
    }

    /// The order of two numbers.
    pub fn cmp(self, other: TwoWords) -> Ordering
        ensures { result ≡ nat_cmp (value_of self) (value_of other) }
    {
        if self.high == other.high {
            self.low.cmp(&other.low)
        } else {
            self.high.cmp(&other.high)
        }
    }

    /// The quotient by a number of up to 2^127, where it is a whole number of one word.
    pub fn exact_quotient(self, by: u128) -> Option<u128>
        requires positive { 1 ≤ by }
        requires small { by ≤ 2 ^ 127 }
        ensures { IsExactQuotient (value_of self) by result }
    {
        if self.high == 0 {
            word_quotient(self.low, by)
        } else if self.high < by {
            long_quotient(self.high, self.low, by)
        } else {
            None
        }
    }
}

/// The exact quotient of one word.
fn word_quotient(n: u128, by: u128) -> Option<u128>
    requires { 1 ≤ by }
    ensures { IsExactQuotient n by result }
{
    if n % by == 0 { Some(n / by) } else { None }
}
