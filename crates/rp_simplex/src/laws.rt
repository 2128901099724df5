//! Laws of the run: it has one outcome.
ghost use Rattle.std.specs.Prelude.{ℕ, suc};
ghost use Rattle.rp_farkas.specs.LinearProgram.{LinearProgram};
ghost use Rattle.rp_farkas.specs.Limits.{IsWithinLimits};
ghost use Rattle.rp_simplex.specs.ExactTableau.{ExactTableau, width_of};
ghost use Rattle.rp_simplex.specs.Growth.{HasGrown, HasPositiveRows};
ghost use Rattle.rp_simplex.specs.Outcome.{IsOutcome};
ghost use Rattle.rp_simplex.specs.ReadProgram.{IsSameProgram};
ghost use Rattle.rp_simplex.specs.Run.{IsTableauAfter};
ghost use Rattle.rp_simplex.specs.SameOutcome.{IsSameOutcome};
ghost use Rattle.rp_simplex.specs.Evidence.{IsEvidence};

use crate::outcome::Outcome;

/// The run of a program has at most one outcome: two that it allows are of one kind and have the same numbers.
pub fn the_run_is_determined()
    ensures { (p : LinearProgram) (one other : Outcome)
        → IsWithinLimits p → IsOutcome p one → IsOutcome p other → IsSameOutcome p one other }
{}

/// After every number of pivots the rows of the tableau but the objective row are lexicographically positive, and each
/// pivot makes the objective row lexicographically greater (Dantzig, Orden and Wolfe 1955). So no tableau comes twice,
/// and within the width the run ends.
pub fn each_step_grows()
    ensures rows_stay_positive { (p : LinearProgram) (k : ℕ) (t : ExactTableau)
        → IsWithinLimits p → IsTableauAfter p k t → HasPositiveRows p.rows (width_of p) t }
    ensures objective_row_grows { (p : LinearProgram) (k : ℕ) (t u : ExactTableau)
        → IsWithinLimits p → IsTableauAfter p k t → IsTableauAfter p (suc k) u
        → HasGrown p.rows (width_of p) t u }
{}

/// The last tableau of a run shows an equal pair, or a feasible point and a ray, and so decides the program.
pub fn outcomes_are_evidence()
    ensures { (p : LinearProgram) (o : Outcome) → IsWithinLimits p → IsOutcome p o
        → IsEvidence p o }
{}

/// Programs that are the same within their rows and columns have the same outcomes.
pub fn same_programs_have_the_same_outcomes()
    ensures { (p q : LinearProgram) (o : Outcome)
        → IsSameProgram p q → IsOutcome p o → IsOutcome q o }
{}
