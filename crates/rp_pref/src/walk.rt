//! Shortest walks between observations.
ghost use Rattle.std.specs.Prelude.{◌≡◌, ◌<◌, ◌+◌, ◌*◌, ◌↔◌, ℕ, IfOk, IfNone, IfSome, length};
ghost use Rattle.std.specs.Prelude.{slice_index};
ghost use Rattle.rp_evidence.specs.Preference.{IsLevel};
ghost use Rattle.rp_evidence.specs.Walk.{IsShortestWalk, IsWalk, Reaches};
ghost use Rattle.rp_table.specs.Cost.{cost_at};
ghost use Rattle.rp_pref.specs.InnerSearch.{IsNoted, IsStepIn, LeadBack};
ghost use Rattle.rp_pref.specs.Steps.{IsStep, OwnWeak, StepOf};

use crate::revealed::{AtLevel, OwnLevels, Revealed, has_step};
use crate::search::{ShortestWalks, walks_from};
use crate::steps::Steps;
use rp_evidence::Level;
use rp_num::{NoMemory, Seq};
use rp_table::Costs;
use std::alloc::Global;

/// A walk of one or more steps from `s` to `t` with as few steps as any; it begins with `s` and ends with `t`, also
/// where they are the same.
pub fn walk_between(
    alloc: Global,
    costs: &Costs,
    level: Level,
    steps: Steps,
    s: u32,
    t: u32,
) -> Result<Option<Seq<u32>>, NoMemory>
    requires level { IsLevel level.num level.den }
    requires from { s < costs.now.n }
    requires to { t < costs.now.n }
    ensures shortest { IfOk result (λ found. IfSome found (λ walk.
        IsShortestWalk costs.now.n
        (IsStep steps (cost_at costs.now) level.num level.den) s t walk)) }
    ensures none { IfOk result (λ found. IfNone found (
        ¬ Reaches costs.now.n (IsStep steps (cost_at costs.now) level.num level.den) s t)) }
{
    shortest_walk(alloc, &AtLevel { costs, level }, steps, s, t)
}

/// A shortest walk by weak steps, at least one, from `s` to `t`, each observation held to its own level.
pub fn own_walk(alloc: Global, costs: &Costs, s: u32, t: u32) -> Result<Option<Seq<u32>>, NoMemory>
    requires from { s < costs.now.n }
    requires to { t < costs.now.n }
    ensures shortest { IfOk result (λ found. IfSome found
        (IsShortestWalk costs.now.n (OwnWeak costs.now) s t)) }
    ensures none { IfOk result (λ found. IfNone found (
        ¬ Reaches costs.now.n (OwnWeak costs.now) s t)) }
{
    shortest_walk(alloc, &OwnLevels { costs }, Steps::Weak, s, t)
}

/// A shortest walk by weak steps of any preference, at least one, from `s` to `t`.
pub fn shortest_walk<P: Revealed>(
    alloc: Global,
    preference: &P,
    steps: Steps,
    s: u32,
    t: u32,
) -> Result<Option<Seq<u32>>, NoMemory>
    requires from { s < P.count preference.now }
    requires to { t < P.count preference.now }
    ensures shortest { IfOk result (λ found. IfSome found (λ walk. IsShortestWalk
        (P.count preference.now)
        (StepOf steps (P.weak preference.now) (P.strict preference.now)) s t walk)) }
    ensures none { IfOk result (λ found. IfNone found (¬ Reaches (P.count preference.now)
        (StepOf steps (P.weak preference.now) (P.strict preference.now)) s t)) }
{
    let n = preference.n() as usize;
    let table = step_table(alloc, preference, steps)?;
    let walks = walks_from(alloc, &table, n, s as usize)?;
    if walks.depths[t as usize] == 0 {
        return Ok(None);
    }
    let walk = walk_back(alloc, &walks, n, s, t)?;
    Ok(Some(walk))
}

/// All steps of the chosen kind, by start and then by end.
fn step_table<P: Revealed>(
    alloc: Global,
    preference: &P,
    steps: Steps,
) -> Result<Vec<bool>, NoMemory>
    ensures size { IfOk result (λ table. length table.items
        ≡ P.count preference.now * P.count preference.now) }
    ensures exact { IfOk result (λ table. (s t : ℕ)
        → s < P.count preference.now → t < P.count preference.now
        → IsStepIn table.items (P.count preference.now) s t
        ↔ StepOf steps (P.weak preference.now) (P.strict preference.now) s t) }
{
    let n = preference.n();
    let mut table = Vec::new(alloc);
    for place in 0..n * n {
        table.push(has_step(preference, steps, place / n, place % n))?;
    }
    Ok(table)
}

/// The walk that was noted for `t`, from `s` on.
fn walk_back(
    alloc: Global,
    walks: &ShortestWalks,
    n: usize,
    s: u32,
    t: u32,
) -> Result<Seq<u32>, NoMemory>
    requires noted { LeadBack n walks.now.depths.items walks.now.before.items }
    requires start { s < n }
    requires below { t < n }
    requires reached { 0 < slice_index walks.now.depths.items t }
    ensures walk { IfOk result (λ walk.
        IsWalk n (IsNoted s walks.now.depths.items walks.now.before.items) s t walk) }
    ensures steps { IfOk result (λ walk. length walk ≡ slice_index walks.now.depths.items t + 1) }
{
    let mut walk = Vec::new(alloc);
    walk.push(t)?;
    let mut at = t;
    while walks.depths[at as usize] > 1 {
        at = walks.before[at as usize];
        walk.push(at)?;
    }
    walk.push(s)?;
    walk.reverse();
    Ok(Seq::from_vec(walk))
}
