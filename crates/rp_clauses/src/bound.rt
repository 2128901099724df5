//! The clause of a bound by a linear program.
ghost use Rattle.std.specs.Prelude.{◌↔◌, IsTrue};
ghost use Rattle.rp_evidence.specs.BoundEvidence.{BoundHolds};
ghost use Rattle.rp_farkas.specs.Measure.{HasMeasure, measured};

use rp_evidence::Bound;
use rp_farkas::{Lp, Measure, check_pair};
use rp_num::Frac;

/// Whether a shown bound is the measure of the prices of an equal pair of the program. A withheld one claims nothing.
pub fn bound_holds<P: Lp>(p: &P, measure: Measure, bound: &Bound) -> bool
    requires measure { HasMeasure (P.program p.now) measure }
    ensures { IsTrue result ↔ BoundHolds (P.program p.now) (measured (P.program p.now) measure)
        bound.now }
{
    match bound {
        Bound::Shown { value, pair } => {
            check_pair(p, pair)
                && *value == Frac::new(measure.of(p, pair.x.as_slice()), u128::from(pair.den))
        }
        Bound::Wide { .. } => true,
    }
}
