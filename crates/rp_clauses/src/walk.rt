//! The clauses of closed walks and of violations.
ghost use Rattle.std.specs.Prelude.{◌+◌, ◌-◌, ◌<◌, ℕ, length, slice_index};
ghost use Rattle.rp_clauses.specs.Standards.{IsNarrow, StrictUnder, WeakUnder};
ghost use Rattle.rp_clauses.specs.WalkFailure.{ClosedWalkFails, ObservationsFail, StrictStepFails};
ghost use Rattle.rp_clauses.specs.WalkFailure.{ViolationFails, WeakStepsFail};
ghost use Rattle.rp_table.specs.Cost.{cost_of};
ghost use Rattle.rp_table.specs.Tables.{records_of};

use crate::input::Input;
use crate::standard::Standard;
use rp_evidence::{Failure, Reason, fails};

/// Checks that there is a step, that each entry is an observation and that the last is the first.
pub fn check_closed_walk(input: &Input<'_>, walk: &[u32]) -> Result<(), Failure>
    ensures { ClosedWalkFails (records_of input.now.table.now) walk.now result }
{
    if walk.len() < 2 {
        return fails(Reason::Shape, 0);
    }
    check_observations(input, walk)?;
    if walk[0] != walk[walk.len() - 1] {
        return fails(Reason::NotClosed, 0);
    }
    Ok(())
}

/// Checks that each entry is an observation.
fn check_observations(input: &Input<'_>, walk: &[u32]) -> Result<(), Failure>
    ensures { ObservationsFail (records_of input.now.table.now) walk.now result }
{
    let n = input.n();
    for (k, s) in walk.iter().enumerate() {
        if *s >= n {
            return fails(Reason::Number, k + 1);
        }
    }
    Ok(())
}

/// Checks that each step is weak.
pub fn check_weak_steps(input: &Input<'_>, standard: Standard, walk: &[u32]) -> Result<(), Failure>
    requires narrow { IsNarrow standard }
    requires some { 0 < length walk.now }
    requires observed { (k : ℕ) → k < length walk.now
        → slice_index walk.now k < records_of input.now.table.now }
    ensures { WeakStepsFail
        (WeakUnder standard input.now.table.now.levels (cost_of input.now.table.now))
        walk.now result }
{
    for k in 0..walk.len() - 1 {
        if !input.is_weak(standard, walk[k], walk[k + 1]) {
            return fails(Reason::NotWeak, k + 1);
        }
    }
    Ok(())
}

/// Checks that a step is strict.
fn check_strict_step(input: &Input<'_>, standard: Standard, walk: &[u32]) -> Result<(), Failure>
    requires narrow { IsNarrow standard }
    requires some { 0 < length walk.now }
    requires observed { (k : ℕ) → k < length walk.now
        → slice_index walk.now k < records_of input.now.table.now }
    ensures { StrictStepFails
        (StrictUnder standard input.now.table.now.levels (cost_of input.now.table.now))
        walk.now result }
{
    for k in 0..walk.len() - 1 {
        if input.is_strict(standard, walk[k], walk[k + 1]) {
            return Ok(());
        }
    }
    fails(Reason::NoStrict, 0)
}

/// Checks a violation: a closed walk of weak steps with a strict one (Varian 1982).
pub fn check_violation(input: &Input<'_>, standard: Standard, walk: &[u32]) -> Result<(), Failure>
    requires narrow { IsNarrow standard }
    ensures { ViolationFails (records_of input.now.table.now)
        (WeakUnder standard input.now.table.now.levels (cost_of input.now.table.now))
        (StrictUnder standard input.now.table.now.levels (cost_of input.now.table.now))
        walk.now result }
{
    check_closed_walk(input, walk)?;
    check_weak_steps(input, standard, walk)?;
    check_strict_step(input, standard, walk)
}
