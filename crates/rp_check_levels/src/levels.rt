//! The check of evidence on levels of the observations' own.
ghost use Rattle.std.specs.Prelude.{◌≡◌, ◌<◌, ◌⊎◌, ◌↔◌, IfOk, IsTrue, ℕ, Ok, length, slice_index};
ghost use Rattle.rp_check_levels.specs.LevelsFailure.{AtFails, FallsBelow, IsLevelAt, LevelsFail};
ghost use Rattle.rp_check_levels.specs.LevelsFailure.{measure_of};
ghost use Rattle.rp_check_levels.specs.WalksFailure.{LoadsFail, WalksFail};
ghost use Rattle.rp_evidence.specs.Clauses.{FirstUnless};
ghost use Rattle.rp_evidence.specs.Preference.{IsStrict};
ghost use Rattle.rp_fit.specs.LevelsEvidence.{ProvesLevels};
ghost use Rattle.rp_table.specs.Cost.{cost_of};
ghost use Rattle.rp_table.specs.Tables.{records_of};

use crate::loads::check_loads;
use crate::measure::Measure;
use crate::walks::check_walks;
use rp_check_walks::is_strict;
use rp_clauses::input::Input;
use rp_evidence::{Failure, Reason, fails};
use rp_fit::{Lack, LevelsPart};

/// Checks evidence on levels of the observations' own.
pub fn check_levels(input: &Input<'_>, part: &LevelsPart) -> Result<(), Failure>
    ensures first { LevelsFail (records_of input.now.table.now) (cost_of input.now.table.now)
        part.now result }
    ensures proves { IfOk result (λ done. ProvesLevels (records_of input.now.table.now)
        (cost_of input.now.table.now) part.now) }
{
    prove!(input.costs.n() > 0);
    check_clauses(input, part)
}

/// Checks the clauses on levels of the observations' own, one after the other.
fn check_clauses(input: &Input<'_>, part: &LevelsPart) -> Result<(), Failure>
    ensures { LevelsFail (records_of input.now.table.now) (cost_of input.now.table.now)
        part.now result }
{
    if part.den == 0 {
        return fails(Reason::Number, 0);
    }
    check_at_of(input, part)?;
    check_walks_of(input, part)?;
    check_loads_of(input, part)
}

/// Checks the levels of a part and its ranks.
fn check_at_of(input: &Input<'_>, part: &LevelsPart) -> Result<(), Failure>
    ensures { AtFails (records_of input.now.table.now) (cost_of input.now.table.now)
        part.now.at part.now.ranks result }
{
    check_at(input, part.at.as_slice(), part.ranks.as_slice())
}

/// Checks the walks of a part.
fn check_walks_of(input: &Input<'_>, part: &LevelsPart) -> Result<(), Failure>
    ensures { WalksFail (records_of input.now.table.now) (cost_of input.now.table.now)
        part.now.walks result }
{
    check_walks(input, part.walks.as_slice())
}

/// Checks what the walks of a part load.
fn check_loads_of(input: &Input<'_>, part: &LevelsPart) -> Result<(), Failure>
    requires { WalksFail (records_of input.now.table.now) (cost_of input.now.table.now)
        part.now.walks (Ok tt) }
    ensures { LoadsFail (records_of input.now.table.now) (cost_of input.now.table.now)
        (measure_of part.now.lack) part.now.den part.now.walks result }
{
    check_loads(
        input,
        measure_of(part.lack),
        part.den,
        part.walks.as_slice(),
    )
}

/// What the walks load.
fn measure_of(lack: Lack) -> Measure
    ensures { result ≡ measure_of lack }
{
    match lack {
        Lack::Mean => Measure::Levels,
        Lack::Squares => Measure::SquaredLevels,
    }
}

/// Checks the levels and the ranks.
fn check_at(input: &Input<'_>, at: &[u32], ranks: &[u32]) -> Result<(), Failure>
    ensures { AtFails (records_of input.now.table.now) (cost_of input.now.table.now)
        at.now ranks.now result }
{
    if at.len() != input.n() as usize {
        return fails(Reason::Shape, 1);
    }
    if ranks.len() != input.n() as usize {
        return fails(Reason::Shape, 2);
    }
    check_each_level(input, at)?;
    check_falls(input, at, ranks)
}

/// Checks that each level is 1 or that of a cheaper bundle.
fn check_each_level(input: &Input<'_>, at: &[u32]) -> Result<(), Failure>
    requires { length at.now ≡ records_of input.now.table.now }
    ensures { FirstUnless (records_of input.now.table.now) (IsLevelAt (records_of input.now.table.now)
        (cost_of input.now.table.now) at.now) Reason.Level result }
{
    for s in 0..input.n() {
        if !is_level(input, s, at[s as usize]) {
            return fails(Reason::Level, s as usize + 1);
        }
    }
    Ok(())
}

/// Whether `t` is `s` or an observation whose bundle is cheaper at the prices of `s`.
fn is_level(input: &Input<'_>, s: u32, t: u32) -> bool
    requires { s < records_of input.now.table.now }
    ensures { IsTrue result ↔ ((t < records_of input.now.table.now)
        × ((t ≡ s) ⊎ IsStrict (cost_of input.now.table.now) s t)) }
{
    t == s || (t < input.n() && is_strict(input, s, t))
}

/// Checks that ranks fall along the steps below the levels.
fn check_falls(input: &Input<'_>, at: &[u32], ranks: &[u32]) -> Result<(), Failure>
    requires levels { length at.now ≡ records_of input.now.table.now }
    requires ranks { length ranks.now ≡ records_of input.now.table.now }
    requires observed { (s : ℕ) → s < records_of input.now.table.now
        → slice_index at.now s < records_of input.now.table.now }
    ensures { FirstUnless (records_of input.now.table.now) (FallsBelow (records_of input.now.table.now)
        (cost_of input.now.table.now) at.now ranks.now) Reason.Order result }
{
    for s in 0..input.n() {
        if !falls_below(input, at, ranks, s) {
            return fails(Reason::Order, s as usize + 1);
        }
    }
    Ok(())
}

/// Whether the rank falls along each step of `s` below its level.
fn falls_below(input: &Input<'_>, at: &[u32], ranks: &[u32], s: u32) -> bool
    requires levels { length at.now ≡ records_of input.now.table.now }
    requires ranks { length ranks.now ≡ records_of input.now.table.now }
    requires observed { (k : ℕ) → k < records_of input.now.table.now
        → slice_index at.now k < records_of input.now.table.now }
    requires from { s < records_of input.now.table.now }
    ensures { IsTrue result ↔ FallsBelow (records_of input.now.table.now)
        (cost_of input.now.table.now) at.now ranks.now s }
{
    for t in 0..input.n() {
        if input.cost(s, t) < input.cost(s, at[s as usize])
            && ranks[t as usize] >= ranks[s as usize]
        {
            return false;
        }
    }
    true
}
