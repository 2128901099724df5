//! The clauses of what weighted walks load.
ghost use Rattle.std.specs.Prelude.{◌≡◌, ◌<◌, ◌≤◌, ◌*◌, ◌^◌, ◌↔◌, ℕ, IsTrue, Ok, length};
ghost use Rattle.std.specs.Prelude.{if◌then◌else◌};
ghost use Rattle.rp_check_levels.specs.InnerWalks.{AreObserved, LoadsAtSome};
ghost use Rattle.rp_check_levels.specs.Loads.{IsWithinLimits, limit, loads};
ghost use Rattle.rp_check_levels.specs.WalksFailure.{LoadsFail, WalksFail, walk_at};
ghost use Rattle.rp_evidence.specs.Preference.{IsStrict};
ghost use Rattle.rp_fit.specs.WeightedWalks.{goes_by, weight_by};
ghost use Rattle.rp_table.specs.Cost.{cost_of};
ghost use Rattle.rp_table.specs.Tables.{records_of};

use crate::measure::{Measure, limit, loads};
use rp_check_walks::is_strict;
use rp_clauses::input::Input;
use rp_evidence::{Failure, Reason, fails};
use rp_fit::WeightedWalk;

/// Checks that the weights of the walks load no strict step from each observation more than they may.
pub(crate) fn check_loads(
    input: &Input<'_>,
    measure: Measure,
    den: u64,
    walks: &[WeightedWalk],
) -> Result<(), Failure>
    requires { WalksFail (records_of input.now.table.now) (cost_of input.now.table.now)
        walks.now (Ok tt) }
    ensures { LoadsFail (records_of input.now.table.now) (cost_of input.now.table.now)
        measure den walks.now result }
{
    for s in 0..input.n() {
        if !is_within_limits(input, measure, den, walks, s) {
            return fails(Reason::Dual, s as usize + 1);
        }
    }
    Ok(())
}

/// Whether the weights load no strict step from `s` more than they may.
fn is_within_limits(
    input: &Input<'_>,
    measure: Measure,
    den: u64,
    walks: &[WeightedWalk],
    s: u32,
) -> bool
    requires walks { WalksFail (records_of input.now.table.now) (cost_of input.now.table.now)
        walks.now (Ok tt) }
    requires from { s < records_of input.now.table.now }
    ensures { IsTrue result ↔ IsWithinLimits (records_of input.now.table.now)
        (cost_of input.now.table.now) measure den walks.now s }
{
    for t in 0..input.n() {
        if is_strict(input, s, t) && !is_within_limit(input, measure, den, walks, s, t) {
            return false;
        }
    }
    true
}

/// Whether the weights load a strict step no more than they may.
fn is_within_limit(
    input: &Input<'_>,
    measure: Measure,
    den: u64,
    walks: &[WeightedWalk],
    s: u32,
    t: u32,
) -> bool
    requires walks { WalksFail (records_of input.now.table.now) (cost_of input.now.table.now)
        walks.now (Ok tt) }
    requires from { s < records_of input.now.table.now }
    requires to { t < records_of input.now.table.now }
    requires strict { IsStrict (cost_of input.now.table.now) s t }
    ensures { IsTrue result ↔ (weight_by (loads measure (cost_of input.now.table.now) s t) walks.now
        ≤ den * limit measure (cost_of input.now.table.now) s t) }
{
    weight_by(input, measure, walks, s, t) <= times(den, limit(input, measure, s, t))
}

/// A denominator times a limit.
fn times(den: u64, limit: u128) -> u128
    requires { limit ≤ 2 ^ 51 }
    ensures { result ≡ den * limit }
{
    u128::from(den) * limit
}

/// The weights of the walks that load the step from `s` to `t`, or the level of `s` by the bundle of `t`.
fn weight_by(input: &Input<'_>, measure: Measure, walks: &[WeightedWalk], s: u32, t: u32) -> u128
    requires walks { WalksFail (records_of input.now.table.now) (cost_of input.now.table.now)
        walks.now (Ok tt) }
    requires from { s < records_of input.now.table.now }
    requires to { t < records_of input.now.table.now }
    ensures { result ≡ weight_by (loads measure (cost_of input.now.table.now) s t) walks.now }
{
    let mut weight = 0;
    for k in 0..walks.len() {
        weight += weight_at(input, measure, walks, k, s, t);
    }
    weight
}

/// The weight of walk `k` where it loads the step, or the level, else 0.
fn weight_at(
    input: &Input<'_>,
    measure: Measure,
    walks: &[WeightedWalk],
    k: usize,
    s: u32,
    t: u32,
) -> u128
    requires walks { WalksFail (records_of input.now.table.now) (cost_of input.now.table.now)
        walks.now (Ok tt) }
    requires place { k < length walks.now }
    requires from { s < records_of input.now.table.now }
    requires to { t < records_of input.now.table.now }
    ensures value { result
        ≡ (if goes_by (loads measure (cost_of input.now.table.now) s t) (walk_at walks.now k).walk
        then (walk_at walks.now k).weight else 0) }
    ensures small { result ≤ 2 ^ 64 }
{
    weight_where(
        goes_by(input, measure, walk_of(walks, k), s, t),
        walks[k].weight,
    )
}

/// The entries of walk `k`.
fn walk_of(walks: &[WeightedWalk], k: usize) -> &[u32]
    requires { k < length walks.now }
    ensures { result.now ≡ (walk_at walks.now k).walk }
{
    walks[k].walk.as_slice()
}

/// The weight where the walk loads the step, else 0.
fn weight_where(there: bool, weight: u64) -> u128
    ensures value { result ≡ (if there then weight else 0) }
    ensures small { result ≤ 2 ^ 64 }
{
    if there { u128::from(weight) } else { 0 }
}

/// Whether some step of the walk loads the step from `s` to `t`, or the level of `s` by the bundle of `t`.
fn goes_by(input: &Input<'_>, measure: Measure, walk: &[u32], s: u32, t: u32) -> bool
    requires observed { AreObserved (records_of input.now.table.now) walk.now }
    requires some { 0 < length walk.now }
    requires from { s < records_of input.now.table.now }
    requires to { t < records_of input.now.table.now }
    ensures { result ≡ goes_by (loads measure (cost_of input.now.table.now) s t) walk.now }
{
    loads_at_some(input, measure, walk, s, t)
}

/// Whether at some place of the walk a step loads the step from `s` to `t`, or the level of `s` by the bundle of `t`.
fn loads_at_some(input: &Input<'_>, measure: Measure, walk: &[u32], s: u32, t: u32) -> bool
    requires observed { AreObserved (records_of input.now.table.now) walk.now }
    requires some { 0 < length walk.now }
    requires from { s < records_of input.now.table.now }
    requires to { t < records_of input.now.table.now }
    ensures { IsTrue result ↔ LoadsAtSome measure (cost_of input.now.table.now) s t walk.now }
{
    for k in 0..walk.len() - 1 {
        if loads(input, measure, s, t, walk[k], walk[k + 1]) {
            return true;
        }
    }
    false
}
