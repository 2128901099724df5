//! The bound of a program, where the check of pairs takes it.
ghost use Rattle.std.specs.Prelude.{◌≡◌, IfOk, IfSome};
ghost use Rattle.rp_evidence.specs.BoundEvidence.{BoundHolds};
ghost use Rattle.rp_evidence.specs.DemandEvidence.{withheld_bound};
ghost use Rattle.rp_farkas.specs.Measure.{HasMeasure, measured};
ghost use Rattle.rp_farkas.specs.PairCheck.{IsShownPair};
ghost use Rattle.rp_whole_tableau.specs.Reduced.{HasReducedValue};

use crate::run::run;
use rp_evidence::Bound;
use rp_farkas::{Lp, Measure, Pair, check_pair};
use rp_num::{Frac, NoMemory};
use std::alloc::Global;

/// The pair where the check takes it.
fn if_taken<P: Lp>(p: &P, pair: Pair) -> Option<Pair>
    ensures { IfSome result (IsShownPair (P.program p.now)) }
{
    if !check_pair(p, &pair) {
        return None;
    }
    Some(pair)
}

/// The measure of the pair's prices.
fn shown<P: Lp>(p: &P, measure: Measure, pair: Pair) -> Bound
    requires measure { HasMeasure (P.program p.now) measure }
    requires pair { IsShownPair (P.program p.now) pair }
    ensures holds { BoundHolds (P.program p.now) (measured (P.program p.now) measure) result }
    ensures given { withheld_bound result ≡ 0 }
    ensures reduced { HasReducedValue result }
{
    let num = measure.of(p, pair.x.as_slice());
    let value = Frac::new(num, u128::from(pair.den));
    prove!(value.den() > 0);
    Bound::Shown { value, pair }
}

/// The measure of the prices at the pair at which the run of the program ends, on whole numbers over one denominator
/// that may have 127 binary digits (Edmonds 1967; Bareiss 1968). None where an entry of the run has more, where a
/// number of the pair in lowest terms passes the width of evidence, where the program has no bound, and after so many
/// pivots as `MOST_PIVOTS`; how often that is, no clause says. What is never given is a bound that is withheld.
pub fn whole_bound_of<P: Lp>(
    alloc: Global,
    p: &P,
    measure: Measure,
) -> Result<Option<Bound>, NoMemory>
    requires { HasMeasure (P.program p.now) measure }
    ensures holds { IfOk result (λ o. IfSome o
        (BoundHolds (P.program p.now) (measured (P.program p.now) measure))) }
    ensures given { IfOk result (λ o. IfSome o (λ bound. withheld_bound bound ≡ 0)) }
    ensures reduced { IfOk result (λ o. IfSome o HasReducedValue) }
{
    let Some(found) = run(alloc, p)? else {
        return Ok(None);
    };
    match if_taken(p, found) {
        Some(pair) => Ok(Some(shown(p, measure, pair))),
        None => Ok(None),
    }
}
