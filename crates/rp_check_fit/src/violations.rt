//! Numbers of pairs of observations that violate an axiom, and their check: they are counted again.
ghost use Rattle.std.specs.Prelude.{IfOk, Ok};
ghost use Rattle.rp_check_fit.specs.Axioms.{IsPairOf};
ghost use Rattle.rp_check_fit.specs.ViolationsFailure.{ViolationsFail};
ghost use Rattle.rp_evidence.specs.Clauses.{Unless};
ghost use Rattle.rp_evidence.specs.Count.{IsNumberOf};
ghost use Rattle.rp_evidence.specs.Input.{input_of_table};
ghost use Rattle.rp_evidence.specs.Reached.{IsWeakClosureOf};
ghost use Rattle.rp_fit.specs.Violations.{AreViolationCounts, IsInGarpPair, IsNumberOfPairs};
ghost use Rattle.rp_table.specs.Tables.{records_of};

use crate::pair_counts::{count_in_pairs, count_pairs};
use crate::pairs::Axiom;
use rp_clauses::closure::Reachability;
use rp_clauses::input::Input;
use rp_evidence::{Failure, Reason, fails};
use rp_fit::ViolationsPart;

/// Counts the pairs that violate each axiom, and the observations in some pair that violates GARP.
pub fn count_violations(input: &Input<'_>) -> ViolationsPart
    ensures accepted { ViolationsFail (input_of_table input.now.table.now) result (Ok tt) }
    ensures proves { AreViolationCounts (input_of_table input.now.table.now)
        result.garp result.weak_garp result.warp result.sarp result.observations }
{
    let reached = Reachability::of(input);
    ViolationsPart {
        garp: count_pairs(input, &reached, Axiom::Garp),
        weak_garp: count_pairs(input, &reached, Axiom::WeakGarp),
        warp: count_pairs(input, &reached, Axiom::Warp),
        sarp: count_pairs(input, &reached, Axiom::Sarp),
        observations: count_in_pairs(input, &reached),
    }
}

/// Checks the numbers of violating pairs.
pub fn check_violations(input: &Input<'_>, part: &ViolationsPart) -> Result<(), Failure>
    ensures first { ViolationsFail (input_of_table input.now.table.now) part.now result }
    ensures proves { IfOk result (λ done. AreViolationCounts (input_of_table input.now.table.now)
        part.now.garp part.now.weak_garp part.now.warp part.now.sarp part.now.observations) }
{
    check_counts(input, part)
}

/// Checks each number of violating pairs, one after the other.
fn check_counts(input: &Input<'_>, part: &ViolationsPart) -> Result<(), Failure>
    ensures { ViolationsFail (input_of_table input.now.table.now) part.now result }
{
    let reached = Reachability::of(input);
    check_pairs(input, &reached, Axiom::Garp, part.garp, 1)?;
    check_pairs(input, &reached, Axiom::WeakGarp, part.weak_garp, 2)?;
    check_pairs(input, &reached, Axiom::Warp, part.warp, 3)?;
    check_pairs(input, &reached, Axiom::Sarp, part.sarp, 4)?;
    check_observations(input, &reached, part.observations)
}

/// Checks that so many pairs violate an axiom.
fn check_pairs(
    input: &Input<'_>,
    reached: &Reachability,
    which: Axiom,
    told: u32,
    place: usize,
) -> Result<(), Failure>
    requires { IsWeakClosureOf reached.now (input_of_table input.now.table.now) }
    ensures { Unless (IsNumberOfPairs (records_of input.now.table.now)
        (IsPairOf (input_of_table input.now.table.now) which) told) Reason.Number place result }
{
    let counted = count_pairs(input, reached, which);
    if counted != told {
        return fails(Reason::Number, place);
    }
    Ok(())
}

/// Checks that so many observations are in some pair that violates GARP.
fn check_observations(input: &Input<'_>, reached: &Reachability, told: u32) -> Result<(), Failure>
    requires { IsWeakClosureOf reached.now (input_of_table input.now.table.now) }
    ensures { Unless (IsNumberOf (records_of input.now.table.now)
        (IsInGarpPair (input_of_table input.now.table.now)) told) Reason.Number 5 result }
{
    let counted = count_in_pairs(input, reached);
    if counted != told {
        return fails(Reason::Number, 5);
    }
    Ok(())
}
