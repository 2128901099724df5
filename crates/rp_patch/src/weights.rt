//! What shares of kinds weigh together, and what the units of all cells do.
ghost use Rattle.std.specs.Prelude.{◌≡◌, All, length};
ghost use Rattle.rp_farkas.specs.Limits.{FitsEvidence};
ghost use Rattle.rp_num.specs.Fraction.{FitsTerm};
ghost use Rattle.rp_patch.specs.Kinds.{all_units_weight, weight_of};

use crate::cells::CellUnits;
use rp_evidence::Share;

/// How much there is of all kinds.
pub fn weight_of_shares(shares: &[Share]) -> u128
    requires { All (λ share. FitsEvidence share.weight) shares.now }
    ensures { result ≡ weight_of shares.now }
{
    let mut weight = 0;
    for share in shares {
        weight += u128::from(share.weight);
    }
    weight
}

/// What the units of all cells weigh together, a weight for each cell.
pub fn weight_of_units<C: CellUnits>(cells: &C, weights: &[u64]) -> u128
    requires { length weights.now ≡ (C.kinds cells.now).cells }
    ensures exact { result ≡ all_units_weight (C.kinds cells.now) weights.now }
    ensures fits { FitsTerm result }
{
    let mut weight = 0;
    for i in 0..cells.cells() {
        weight += u128::from(weights[i as usize]) * u128::from(cells.units(i));
    }
    weight
}
