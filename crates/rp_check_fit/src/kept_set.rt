//! The clauses of kept observations.
ghost use Rattle.std.specs.Prelude.{◌≡◌, ◌-◌, ◌<◌, ◌≤◌, ◌↔◌, ℕ, IsTrue, length, slice_index};
ghost use Rattle.rp_check_fit.specs.KeptFailure.{RespectsKeptAt, RisesAt, SetFails};
ghost use Rattle.rp_evidence.specs.Clauses.{FirstUnless};
ghost use Rattle.rp_evidence.specs.Preference.{IsStrict, IsWeak};
ghost use Rattle.rp_table.specs.Cost.{cost_of};
ghost use Rattle.rp_table.specs.Tables.{records_of};

use rp_check_walks::{is_strict, is_weak};
use rp_clauses::input::Input;
use rp_evidence::{Failure, Reason, fails};

/// Checks that the kept observations are a set, and that their ranks respect the steps between them.
pub(crate) fn check_set(input: &Input<'_>, kept: &[u32], ranks: &[u32]) -> Result<(), Failure>
    ensures { SetFails (records_of input.now.table.now) (cost_of input.now.table.now)
        kept.now ranks.now result }
{
    if ranks.len() != kept.len() {
        return fails(Reason::Shape, 0);
    }
    check_observed(input, kept)?;
    check_rising(kept)?;
    check_ranks(input, kept, ranks)
}

/// Checks that each entry is an observation.
fn check_observed(input: &Input<'_>, kept: &[u32]) -> Result<(), Failure>
    ensures { FirstUnless (length kept.now)
        (λ k. slice_index kept.now k < records_of input.now.table.now) Reason.Number result }
{
    let n = input.n();
    for (k, s) in kept.iter().enumerate() {
        if *s >= n {
            return fails(Reason::Number, k + 1);
        }
    }
    Ok(())
}

/// Checks that each entry is below the next.
fn check_rising(kept: &[u32]) -> Result<(), Failure>
    ensures { FirstUnless (length kept.now - 1) (RisesAt kept.now) Reason.Set result }
{
    for k in 1..kept.len() {
        if kept[k - 1] >= kept[k] {
            return fails(Reason::Set, k);
        }
    }
    Ok(())
}

/// Whether a rank does not rise to another along a weak step, and falls along a strict one.
fn respect_step(input: &Input<'_>, s: u32, t: u32, here: u32, there: u32) -> bool
    requires from { s < records_of input.now.table.now }
    requires to { t < records_of input.now.table.now }
    ensures { IsTrue result ↔ ((IsWeak (cost_of input.now.table.now) s t → there ≤ here)
        × (IsStrict (cost_of input.now.table.now) s t → there < here)) }
{
    (there <= here || !is_weak(input, s, t)) && (there < here || !is_strict(input, s, t))
}

/// Whether no weak step from the kept observation at place `i` to a kept one rises in rank, and each strict one falls.
fn respects(input: &Input<'_>, kept: &[u32], ranks: &[u32], i: usize) -> bool
    requires place { i < length kept.now }
    requires one_each { length ranks.now ≡ length kept.now }
    requires observed { (k : ℕ) → k < length kept.now
        → slice_index kept.now k < records_of input.now.table.now }
    ensures { IsTrue result
        ↔ RespectsKeptAt (cost_of input.now.table.now) kept.now ranks.now i }
{
    for j in 0..kept.len() {
        if !respect_step(input, kept[i], kept[j], ranks[i], ranks[j]) {
            return false;
        }
    }
    true
}

/// Checks that the ranks respect the steps between kept observations.
fn check_ranks(input: &Input<'_>, kept: &[u32], ranks: &[u32]) -> Result<(), Failure>
    requires one_each { length ranks.now ≡ length kept.now }
    requires observed { (k : ℕ) → k < length kept.now
        → slice_index kept.now k < records_of input.now.table.now }
    ensures { FirstUnless (length kept.now)
        (RespectsKeptAt (cost_of input.now.table.now) kept.now ranks.now) Reason.Order result }
{
    for i in 0..kept.len() {
        if !respects(input, kept, ranks, i) {
            return fails(Reason::Order, i + 1);
        }
    }
    Ok(())
}
