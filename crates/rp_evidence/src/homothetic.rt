//! The evidence for the homothetic test.
ghost use Rattle.std.specs.Prelude.{◌≡◌};

use rp_num::{Frac, Seq};

/// Evidence for the homothetic test, by observation from 0: positive values; a start that a closed walk takes below
/// itself; or where the width was passed: the least product over up to `steps` steps to `from`, taken on to `to`.
#[derive(Debug, Drop)]
pub enum Homothetic {
    Values(Seq<Frac>),
    Cycle { start: Frac, steps: Seq<u32> },
    Withheld { steps: u32, from: u32, to: u32 },
}

impl Homothetic {
    ghost use Rattle.rp_evidence.specs.Homothetic.{withheld_homothetic};

    /// How many values are left out because their computation passed its width.
    pub(crate) fn withheld(&self) -> u32
        ensures { result ≡ withheld_homothetic self.now }
    {
        match self {
            Homothetic::Withheld { .. } => 1,
            _ => 0,
        }
    }
}
