//! The bound of a program by its run.
ghost use Rattle.std.specs.Prelude.{◌≡◌, IfOk};
ghost use Rattle.rp_farkas.specs.Measure.{HasMeasure, measured};
ghost use Rattle.rp_farkas.specs.Prices.{HasFeasiblePrices};
ghost use Rattle.rp_farkas.specs.declared.measure.Measure.TheVariants.{Cost};
ghost use Rattle.rp_simplex.specs.ProgramBound.{IsBoundOf, ShowsLeastCost};

use crate::{Outcome, maximize};
use rp_evidence::Bound;
use rp_farkas::{Lp, Measure};
use rp_num::{Frac, NoMemory};
use std::alloc::Global;

/// The measure of the prices at the pair at which the run of the program ends, or the step at which the run is
/// withheld.
pub fn bound_of<P: Lp>(alloc: Global, p: &P, measure: Measure) -> Result<Bound, NoMemory>
    requires measure { HasMeasure (P.program p.now) measure }
    requires prices { HasFeasiblePrices (P.program p.now) }
    ensures bound { IfOk result (IsBoundOf (P.program p.now) (measured (P.program p.now) measure)) }
    ensures least { IfOk result (λ bound. measure ≡ Cost
        → ShowsLeastCost (P.program p.now) bound) }
{
    match maximize(alloc, p)? {
        Outcome::Optimal(pair) => {
            let num = measure.of(p, pair.x.as_slice());
            let value = Frac::new(num, u128::from(pair.den));
            Ok(Bound::Shown { value, pair })
        }
        Outcome::Unbounded { .. } => unreachable!(),
        Outcome::Wide { step } => Ok(Bound::Wide { step }),
    }
}
