//! The evidence by Afriat's theorem.
ghost use Rattle.std.specs.Prelude.{◌≡◌};

use rp_num::Seq;

/// The greatest utility of a model in absolute value.
pub const UTILITY_WIDTH: i128 = 1 << 120;
/// The greatest multiplier of a model.
pub const MULTIPLIER_WIDTH: u64 = 1 << 60;

/// The numbers of an Afriat model (Afriat 1967; Varian 1982): by observation `t` the utility `u` and the multiplier
/// `lambda` of Afriat's inequalities, `u_s <= u_t + lambda_t * p_t (x_s - x_t)`.
#[derive(Debug, Drop)]
pub struct Numbers {
    pub u: Seq<i128>,
    pub lambda: Seq<u64>,
}

/// Evidence for a utility that rationalizes the choices: the numbers of an Afriat model; a violation of the generalized
/// axiom as a closed walk over observations, from 0; or the first observation whose number passed its width.
#[derive(Debug, Drop)]
pub enum AfriatPart {
    Model(Numbers),
    NoModel(Seq<u32>),
    Wide { at: u32 },
}

impl AfriatPart {
    ghost use Rattle.rp_evidence.specs.AfriatEvidence.{withheld_afriat};

    /// How many values are left out because their computation passed its width.
    pub(crate) fn withheld(&self) -> u32
        ensures { result ≡ withheld_afriat self.now }
    {
        match self {
            AfriatPart::Wide { .. } => 1,
            _ => 0,
        }
    }
}
