//! Single steps, weak and strict.
ghost use Rattle.std.specs.Prelude.{◌≡◌, ◌<◌, ◌*◌, ◌↔◌, IsTrue};
ghost use Rattle.rp_evidence.specs.Preference.{IsLevel, IsStrictAt, IsWeakAt};
ghost use Rattle.rp_table.specs.Cost.{cost_at};
ghost use Rattle.rp_pref.specs.Steps.{OwnStrict, OwnWeak};

use rp_evidence::Level;
use rp_table::Costs;

/// Which steps of a level make up walks.
#[derive(Clone, Copy, Debug, PartialEq, Eq)]
pub enum Steps {
    Weak,
    Strict,
}

/// Whether observation `s` is weakly preferred to `t` at the level: `t` costs no more at the prices of `s` than
/// that part of what `s` costs (Varian 1982; levels after Afriat).
pub fn weak(costs: &Costs, level: Level, s: u32, t: u32) -> bool
    requires level { IsLevel level.num level.den }
    requires from { s < costs.now.n }
    requires to { t < costs.now.n }
    ensures { IsTrue result ↔ IsWeakAt (cost_at costs.now) level.num level.den s t }
{
    part(level.den, costs.cost(s, t)) <= part(level.num, costs.cost(s, s))
}

/// Whether observation `s` is strictly preferred to `t` at the level: `t` costs less at the prices of `s` than that
/// part of what `s` costs.
pub fn strict(costs: &Costs, level: Level, s: u32, t: u32) -> bool
    requires level { IsLevel level.num level.den }
    requires from { s < costs.now.n }
    requires to { t < costs.now.n }
    ensures { IsTrue result ↔ IsStrictAt (cost_at costs.now) level.num level.den s t }
{
    part(level.den, costs.cost(s, t)) < part(level.num, costs.cost(s, s))
}

/// Whether observation `s` is weakly preferred to `t` by its own level: `t` costs no more at the prices of `s` than
/// that part of what `s` costs (Varian 1990).
pub fn own_weak(costs: &Costs, s: u32, t: u32) -> bool
    requires from { s < costs.now.n }
    requires to { t < costs.now.n }
    ensures { IsTrue result ↔ OwnWeak costs.now s t }
{
    costs.scale() * costs.cost(s, t) <= costs.own(s)
}

/// Whether observation `s` is strictly preferred to `t` by its own level: `t` costs less at the prices of `s` than that
/// part of what `s` costs.
pub fn own_strict(costs: &Costs, s: u32, t: u32) -> bool
    requires from { s < costs.now.n }
    requires to { t < costs.now.n }
    ensures { IsTrue result ↔ OwnStrict costs.now s t }
{
    costs.scale() * costs.cost(s, t) < costs.own(s)
}

/// A part of a level times a cost.
fn part(part: u64, cost: u64) -> u128
    ensures { result ≡ part * cost }
{
    u128::from(part) * u128::from(cost)
}
