//! The simplex over a program.
ghost use Rattle.std.specs.Prelude.{IfOk};
ghost use Rattle.rp_simplex.specs.Outcome.{IsOutcome};
ghost use Rattle.rp_simplex.specs.SameOutcome.{IsSameOutcome};
ghost use Rattle.rp_simplex.specs.Evidence.{IsEvidence};

use crate::outcome::Outcome;
use crate::tableau::Tableau;
use rp_farkas::Lp;
use rp_num::NoMemory;
use std::alloc::Global;

/// Runs the simplex on the program, step for step, and gives how the run ends. A step is counted up to 2^64 - 1, which
/// stands for every greater number too.
pub fn maximize<P: Lp>(alloc: Global, p: &P) -> Result<Outcome, NoMemory>
    ensures outcome { IfOk result (λ o. IsOutcome (P.program p.now) o) }
    ensures only { IfOk result (λ o. (other : Outcome)
        → IsOutcome (P.program p.now) other → IsSameOutcome (P.program p.now) o other) }
    ensures evidence { IfOk result (λ o. IsEvidence (P.program p.now) o) }
{
    let tableau = Tableau::of(alloc, p)?;
    Ok(tableau.solve())
}
