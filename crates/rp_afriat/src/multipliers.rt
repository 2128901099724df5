//! The multipliers of a class of observations.
ghost use Rattle.std.specs.Prelude.{◌≡◌, ◌<◌, ◌≤◌, ℕ, IfNone, IfSome, length};
ghost use Rattle.std.specs.Prelude.{slice_index};
ghost use Rattle.rp_evidence.specs.Count.{AreCounts};
ghost use Rattle.rp_evidence.specs.StandardNumbers.{FitsUtility, IsMultiplierBy};
ghost use Rattle.rp_pref.specs.Steps.{OwnWeak};
ghost use Rattle.rp_table.specs.Cost.{own_of};
ghost use Rattle.rp_afriat.specs.InnerFilling.{PassesMultiplier, SetsMultipliers, scaled_at};
ghost use Rattle.rp_afriat.specs.InnerFilling.{utility_of};

use crate::bounds::{rounded_up, scaled};
use rp_evidence::MULTIPLIER_WIDTH;
use rp_table::Costs;

/// The multiplier of an observation, of which the utility is known, and those of all higher classes.
fn multiplier(costs: &Costs, counts: &[u32], u: &[i128], s: u32) -> u128
    requires counted { AreCounts costs.now.n (OwnWeak costs.now) counts.now }
    requires each { length u.now ≡ costs.now.n }
    requires fit { (t : ℕ) → t < costs.now.n → slice_index counts.now s ≤ slice_index counts.now t
        → FitsUtility (utility_of u.now t) }
    requires observed { s < costs.now.n }
    ensures { IsMultiplierBy costs.now.n (scaled_at costs.now) (own_of costs.now)
        (slice_index counts.now) (utility_of u.now) s result }
{
    let mut most: u128 = 1;
    let i = s as usize;
    for t in 0..costs.n() {
        let j = t as usize;
        if counts[j] > counts[i] {
            most = most.max(rounded_up(u[j] - u[i], scaled(costs, s, t) - costs.own(s)));
        }
    }
    most
}

/// Gives each observation of a class its multiplier, unless one is too wide: then says which is the first.
pub fn set_multipliers(
    costs: &Costs,
    counts: &[u32],
    class: u32,
    u: &[i128],
    lambda: &mut [u64],
) -> Option<u32>
    requires counted { AreCounts costs.now.n (OwnWeak costs.now) counts.now }
    requires utilities_each { length u.now ≡ costs.now.n }
    requires multipliers_each { length lambda.old ≡ costs.now.n }
    requires fit { (t : ℕ) → t < costs.now.n → class ≤ slice_index counts.now t
        → FitsUtility (utility_of u.now t) }
    ensures set { IfNone result
        (SetsMultipliers costs.now counts.now class u.now lambda.old lambda.new costs.now.n) }
    ensures steep { IfSome result (PassesMultiplier costs.now counts.now class u.now) }
    ensures so_far { IfSome result
        (SetsMultipliers costs.now counts.now class u.now lambda.old lambda.new) }
{
    for s in 0..costs.n() {
        let i = s as usize;
        if counts[i] == class {
            let least = multiplier(costs, counts, u, s);
            if least > u128::from(MULTIPLIER_WIDTH) {
                return Some(s);
            }
            lambda[i] = least as u64;
        }
    }
    None
}
