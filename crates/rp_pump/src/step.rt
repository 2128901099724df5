//! Steps of walks, and what each gives away.
ghost use Rattle.std.specs.Prelude.{◌≡◌, ◌*◌, ◌↔◌, ◌<◌, ◌≤◌, ◌^◌, ◌-ℤ◌, IsTrue, pos};
ghost use Rattle.std.specs.Int.RustNames.{unsigned_abs};
ghost use Rattle.rp_evidence.specs.Preference.{IsWeak};
ghost use Rattle.rp_fit.specs.PumpTotals.{excess};
ghost use Rattle.rp_table.specs.Cost.{cost_at};

use rp_table::Costs;

/// Whether a step is weak at the level 1.
pub(crate) fn is_weak(costs: &Costs, s: u32, t: u32) -> bool
    requires from { s < costs.now.n }
    requires to { t < costs.now.n }
    ensures { IsTrue result ↔ IsWeak (cost_at costs.now) s t }
{
    costs.cost(s, t) <= costs.cost(s, s)
}

/// The part `num/den` of what was spent at `s`, less the gain of a step to `t`, both times `den`.
pub(crate) fn excess(costs: &Costs, num: u64, den: u64, s: u32, t: u32) -> i128
    requires from { s < costs.now.n }
    requires to { t < costs.now.n }
    ensures value { result ≡ excess (cost_at costs.now) num den s t }
    ensures small { unsigned_abs result ≤ 2 ^ 116 }
{
    let spent = costs.cost(s, s);
    let left = product(num, spent) + product(den, costs.cost(s, t));
    difference(left, product(den, spent))
}

/// The difference of two numbers of at most 116 bits.
fn difference(a: u128, b: u128) -> i128
    requires a_fits { a ≤ 2 ^ 116 }
    requires b_fits { b ≤ 2 ^ 116 }
    ensures value { result ≡ pos a -ℤ pos b }
    ensures small { unsigned_abs result ≤ 2 ^ 116 }
{
    a as i128 - b as i128
}

/// A part of a ratio times a cost.
fn product(part: u64, cost: u64) -> u128
    requires { cost < 2 ^ 51 }
    ensures value { result ≡ part * cost }
    ensures small { result < 2 ^ 115 }
{
    u128::from(part) * u128::from(cost)
}
