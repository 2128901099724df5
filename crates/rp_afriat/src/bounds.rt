//! The bounds that the numbers of observations set on a utility, and their least.
ghost use Rattle.std.specs.Prelude.{◌≡◌, ◌<◌, ◌≤◌, ◌*◌, ◌^◌, ◌+ℤ◌, ◌-ℤ◌, ◌*ℤ◌, ◌≤ℤ◌, neg_ℤ, pos};
ghost use Rattle.rp_evidence.specs.StandardNumbers.{FitsMultiplier, FitsUtility};
ghost use Rattle.rp_afriat.specs.InnerFilling.{IsCeiling, scaled_at};

use rp_table::Costs;

/// The bound that the numbers of an observation set: its utility, and for each unit that a bundle costs beyond what
/// it is held to its multiplier.
pub fn bound(u: i128, lambda: u64, cost: u64, own: u64) -> i128
    requires utility_fits { FitsUtility u }
    requires multiplier_fits { FitsMultiplier lambda }
    requires cost_below { cost < 2 ^ 61 }
    requires own_below { own < 2 ^ 61 }
    ensures { result ≡ u +ℤ (pos lambda *ℤ (pos cost -ℤ pos own)) }
{
    u + times(lambda, i128::from(cost) - i128::from(own))
}

/// A multiplier times what a bundle costs beyond what an observation is held to.
fn times(lambda: u64, beyond: i128) -> i128
    requires multiplier_fits { FitsMultiplier lambda }
    requires below { beyond ≤ℤ pos (2 ^ 61) }
    requires above { neg_ℤ (pos (2 ^ 61)) ≤ℤ beyond }
    ensures exact { result ≡ pos lambda *ℤ beyond }
    ensures below { result ≤ℤ pos (2 ^ 121) }
    ensures above { neg_ℤ (pos (2 ^ 121)) ≤ℤ result }
{
    i128::from(lambda) * beyond
}

/// The least multiplier that makes up for a difference of utilities at that cost beyond what an observation is held to.
pub fn rounded_up(difference: i128, extra: u64) -> u128
    requires { 0 < extra }
    ensures { IsCeiling difference extra result }
{
    if difference <= 0 {
        return 0;
    }
    difference.unsigned_abs().div_ceil(u128::from(extra))
}

/// What the bundle of `t` costs at the prices of `s`, in the scale of the levels.
pub fn scaled(costs: &Costs, s: u32, t: u32) -> u64
    requires prices { s < costs.now.n }
    requires bundle { t < costs.now.n }
    ensures exact { result ≡ scaled_at costs.now s t }
    ensures below { result < 2 ^ 61 }
{
    costs.scale() * costs.cost(s, t)
}
