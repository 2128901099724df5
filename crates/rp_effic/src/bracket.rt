//! Two numbers between which the index lies.
ghost use Rattle.std.specs.Prelude.{◌≡◌, ◌*◌, ◌↔◌, IsTrue};
ghost use Rattle.rp_effic.specs.InnerBracket.{IsBetween};

use crate::ratio::Ratio;
use rp_evidence::Level;

/// Two numbers between which the index lies: above the lower, and at most the upper. The lower is 0 or a ratio.
#[derive(Clone, Copy, Debug)]
pub struct Bracket {
    pub low: Level,
    pub high: Ratio,
}

impl Bracket {
    /// Whether a ratio is above the lower end and below the upper one.
    pub fn has_within(&self, ratio: &Ratio) -> bool
        ensures { IsTrue result ↔ IsBetween self.now ratio.now.num ratio.now.den }
    {
        across(self.low.num, ratio.den) < across(ratio.num, self.low.den)
            && across(ratio.num, self.high.den) < across(self.high.num, ratio.den)
    }
}

/// The product of two numbers.
fn across(a: u64, b: u64) -> u128
    ensures { result ≡ a * b }
{
    u128::from(a) * u128::from(b)
}
