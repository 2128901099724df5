//! The evidence on random choices.
ghost use Rattle.std.specs.Prelude.{◌≡◌};

use rp_num::Seq;

/// A rational type with its weight: its patches, from 0, one of each budget in their order.
#[derive(Debug, Drop)]
pub struct Share {
    /// In evidence on menus: the letters of a strict order, from 0, the best first.
    pub patches: Seq<u32>,
    pub weight: u64,
}

/// Evidence on random choices from budgets (McFadden and Richter 1990), over `den`: a mixture; or a partial one with
/// weights of the patches that show no share to be greater. Or else the step at which the run passes its width.
#[derive(Debug, Drop)]
pub enum RandomPart {
    Mixture {
        den: u64,
        parts: Seq<Share>,
    },
    Violated {
        den: u64,
        parts: Seq<Share>,
        weights: Seq<u64>,
    },
    Wide {
        step: u64,
    },
}

impl RandomPart {
    ghost use Rattle.rp_evidence.specs.Withheld.{withheld_random};

    /// 1 where the verdict is withheld.
    pub(crate) fn withheld(&self) -> u32
        ensures { result ≡ withheld_random self.now }
    {
        match self {
            RandomPart::Wide { .. } => 1,
            _ => 0,
        }
    }
}
