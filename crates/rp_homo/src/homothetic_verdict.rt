//! The homothetic test.
ghost use Rattle.std.specs.Prelude.{IfOk, All};
ghost use Rattle.rp_num.specs.Fraction.{Fraction, FitsWidth, IsLowestTerms};
ghost use Rattle.rp_evidence.specs.Homothetic.{ProvesHomothetic};
ghost use Rattle.rp_homo.specs.HomotheticVerdict.{IsHomotheticVerdict};
ghost use Rattle.rp_people.specs.Says.{SaysHomothetic};
ghost use Rattle.rp_people.specs.TablesOfCosts.{OfEachTable};
ghost use Rattle.rp_table.specs.Cost.{cost_at};

use crate::products::Products;
use rp_evidence::Homothetic;
use rp_num::{Frac, NoMemory};
use rp_table::Costs;
use rp_walk::{Settled, settle};
use std::alloc::Global;

/// The least products over all walks as values, a closed walk along which its start is multiplied below
/// itself, or the first step whose product passes the width of a fraction.
pub fn homothetic(alloc: Global, costs: &Costs) -> Result<Homothetic, NoMemory>
    ensures verdict { IfOk result (IsHomotheticVerdict costs.now.n (cost_at costs.now)) }
    ensures proves { IfOk result (ProvesHomothetic costs.now.n (cost_at costs.now)) }
    ensures says { IfOk result (λ verdict.
        OfEachTable costs.now (λ input. SaysHomothetic input verdict)) }
{
    let n = costs.n();
    prove!(n > 0);
    let products = Products { costs };
    match settle(alloc, &products)? {
        Settled::Values(values) => {
            are_lowest(values.as_slice());
            Ok(Homothetic::Values(values))
        }
        Settled::Cycle { start, steps } => {
            prove!(start.den() > 0);
            Ok(Homothetic::Cycle { start, steps })
        }
        Settled::Wide { steps, from, to } => Ok(Homothetic::Withheld { steps, from, to }),
    }
}

/// Shows callers that the fractions are in lowest terms and within the width, as every fraction is.
fn are_lowest(fractions: &[Frac])
    ensures lowest { All (λ (f : Fraction). IsLowestTerms f.num f.den f) fractions.now }
    ensures fit { All FitsWidth fractions.now }
{
    for fraction in fractions {
        prove!(fraction.den() > 0);
    }
}
