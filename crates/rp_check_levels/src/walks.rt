//! The clauses of weighted walks.
ghost use Rattle.std.specs.Prelude.{◌<◌, ◌↔◌, IsTrue, length};
ghost use Rattle.rp_check_levels.specs.InnerWalks.{AreObserved, ClosesStrictly, StepsAreStrict};
ghost use Rattle.rp_check_levels.specs.WalksFailure.{WalkFails, WalksFail};
ghost use Rattle.rp_check_walks.specs.Distinct.{ArePlacesDistinct};
ghost use Rattle.rp_fit.specs.WeightedWalks.{IsSimpleStrictWalk};
ghost use Rattle.rp_table.specs.Cost.{cost_of};
ghost use Rattle.rp_table.specs.Tables.{records_of};

use rp_check_walks::{are_distinct, is_strict};
use rp_clauses::input::Input;
use rp_evidence::{Failure, Reason, fails};
use rp_fit::WeightedWalk;

/// Checks the walks, each in turn.
pub(crate) fn check_walks(input: &Input<'_>, walks: &[WeightedWalk]) -> Result<(), Failure>
    ensures { WalksFail (records_of input.now.table.now) (cost_of input.now.table.now)
        walks.now result }
{
    for k in 0..walks.len() {
        check_walk(input, walks, k)?;
    }
    Ok(())
}

/// Checks walk `k`: some weight, and a closed walk of strict steps through no observation twice.
fn check_walk(input: &Input<'_>, walks: &[WeightedWalk], k: usize) -> Result<(), Failure>
    requires { k < length walks.now }
    ensures { WalkFails (records_of input.now.table.now) (cost_of input.now.table.now)
        walks.now k result }
{
    let each = &walks[k];
    if each.weight == 0 {
        return fails(Reason::Number, k + 1);
    }
    if !is_simple(input, each.walk.as_slice()) {
        return fails(Reason::Set, k + 1);
    }
    Ok(())
}

/// Whether these are a closed walk of strict steps through no observation twice.
fn is_simple(input: &Input<'_>, walk: &[u32]) -> bool
    ensures { IsTrue result ↔ IsSimpleStrictWalk (records_of input.now.table.now)
        (cost_of input.now.table.now) walk.now }
{
    is_simple_by_places(input, walk)
}

/// Whether the places of a walk show a closed walk of strict steps through no observation twice.
fn is_simple_by_places(input: &Input<'_>, walk: &[u32]) -> bool
    ensures { IsTrue result ↔ (ClosesStrictly (records_of input.now.table.now)
        (cost_of input.now.table.now) walk.now × ArePlacesDistinct walk.now) }
{
    closes_strictly(input, walk) && are_distinct(walk)
}

/// Whether these are a closed walk of strict steps, no more of them than observations.
fn closes_strictly(input: &Input<'_>, walk: &[u32]) -> bool
    ensures { IsTrue result ↔ ClosesStrictly (records_of input.now.table.now)
        (cost_of input.now.table.now) walk.now }
{
    if walk.len() < 2 || walk.len() > input.n() as usize + 1 {
        return false;
    }
    are_observed(input, walk) && are_strict(input, walk) && walk[0] == walk[walk.len() - 1]
}

/// Whether each entry is an observation.
fn are_observed(input: &Input<'_>, walk: &[u32]) -> bool
    ensures { IsTrue result ↔ AreObserved (records_of input.now.table.now) walk.now }
{
    for k in 0..walk.len() {
        if walk[k] >= input.n() {
            return false;
        }
    }
    true
}

/// Whether each step is strict.
fn are_strict(input: &Input<'_>, walk: &[u32]) -> bool
    requires some { 0 < length walk.now }
    requires observed { AreObserved (records_of input.now.table.now) walk.now }
    ensures { IsTrue result ↔ StepsAreStrict (cost_of input.now.table.now) walk.now }
{
    for k in 0..walk.len() - 1 {
        if !is_strict(input, walk[k], walk[k + 1]) {
            return false;
        }
    }
    true
}
