//! What a bound measures of a price vector.
ghost use Rattle.std.specs.Prelude.{◌≡◌, ◌^◌, ◌<◌, All, length, slice_index};
ghost use Rattle.rp_farkas.specs.Limits.{FitsEvidence};
ghost use Rattle.rp_farkas.specs.Measure.{HasMeasure, measured};

use crate::program::Lp;
use crate::sums::cost_sum;

/// What a bound is on, of a price vector: what it costs, or the price of one row.
#[derive(Clone, Copy, Debug, PartialEq, Eq)]
pub enum Measure {
    Cost,
    Price(u32),
}

impl Measure {
    /// The numerator that the numerators of the prices give; the denominator stays theirs.
    pub fn of<P: Lp>(self, p: &P, x: &[u64]) -> u128
        requires measure { HasMeasure (P.program p.now) self }
        requires rows { length x.now ≡ (P.program p.now).rows }
        requires fits { All FitsEvidence x.now }
        ensures exact { result ≡ measured (P.program p.now) self (slice_index x.now) }
        ensures below { result < 2 ^ 127 }
    {
        match self {
            Measure::Cost => cost_sum(p, x).unsigned_abs(),
            Measure::Price(row) => u128::from(x[row as usize]),
        }
    }
}
