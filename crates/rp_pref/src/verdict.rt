//! The evidence for the generalized axiom of revealed preference, by the closure of the weak steps.
ghost use Rattle.std.specs.Prelude.{ℕ, ◌<◌, IfOk};
ghost use Rattle.rp_evidence.specs.First.{AreFirstRelated, IsFirstOf};
ghost use Rattle.rp_evidence.specs.Garp.{ProvesOfPreference};
ghost use Rattle.rp_evidence.specs.Preference.{IsLevel};
ghost use Rattle.rp_evidence.specs.Walk.{IsShortestWalk, Reaches};
ghost use Rattle.rp_pref.specs.Closure.{IsClosureOf};
ghost use Rattle.rp_pref.specs.Steps.{OwnStrict, OwnWeak, StrictAt, WeakAt};
ghost use Rattle.rp_pref.specs.Violation.{IsVerdictOfPreference, Violate};

use crate::closure::Closure;
use crate::revealed::{AtLevel, OwnLevels, Revealed};
use crate::steps::Steps;
use crate::walk::shortest_walk;
use rp_evidence::{Garp, Level};
use rp_num::{NoMemory, Seq};
use rp_table::Costs;
use std::alloc::Global;

/// The verdict on the preference at a level.
pub fn verdict_at(
    alloc: Global,
    costs: &Costs,
    level: Level,
    closure: &Closure,
) -> Result<Garp, NoMemory>
    requires level { IsLevel level.num level.den }
    requires closed { IsClosureOf closure.now costs.now.n (WeakAt costs.now level) }
    ensures proves { IfOk result (ProvesOfPreference costs.now.n
        (WeakAt costs.now level) (StrictAt costs.now level)) }
    ensures given { IfOk result (IsVerdictOfPreference costs.now.n
        (WeakAt costs.now level) (StrictAt costs.now level)) }
{
    verdict_over(alloc, &AtLevel { costs, level }, closure)
}

/// The verdict where each observation is held to its own level.
pub fn own_verdict(alloc: Global, costs: &Costs, closure: &Closure) -> Result<Garp, NoMemory>
    requires { IsClosureOf closure.now costs.now.n (OwnWeak costs.now) }
    ensures proves { IfOk result (ProvesOfPreference costs.now.n
        (OwnWeak costs.now) (OwnStrict costs.now)) }
    ensures given { IfOk result (IsVerdictOfPreference costs.now.n
        (OwnWeak costs.now) (OwnStrict costs.now)) }
{
    verdict_over(alloc, &OwnLevels { costs }, closure)
}

/// Where no two observations violate the axiom, the counts as ranks; else a shortest cycle of the first two that do,
/// whose last step is strict.
pub fn verdict_over<P: Revealed>(
    alloc: Global,
    preference: &P,
    closure: &Closure,
) -> Result<Garp, NoMemory>
    requires strict_is_weak { (s t : ℕ) → s < P.count preference.now → t < P.count preference.now
        → P.strict preference.now s t → P.weak preference.now s t }
    requires closed { IsClosureOf closure.now (P.count preference.now) (P.weak preference.now) }
    ensures proves { IfOk result (ProvesOfPreference (P.count preference.now)
        (P.weak preference.now) (P.strict preference.now)) }
    ensures given { IfOk result (IsVerdictOfPreference (P.count preference.now)
        (P.weak preference.now) (P.strict preference.now)) }
{
    match first_violation(preference, closure) {
        None => {
            let ranks = closure.counts(alloc)?;
            Ok(Garp::Ranks(ranks))
        }
        Some((s, t)) => {
            let mut steps = shortest_weak_walk(alloc, preference, s, t)?.into_vec();
            steps.push(s)?;
            Ok(Garp::Cycle(Seq::from_vec(steps)))
        }
    }
}

/// The first two observations, by the first and then by the second, that violate the axiom.
fn first_violation<P: Revealed>(preference: &P, closure: &Closure) -> Option<(u32, u32)>
    requires { IsClosureOf closure.now (P.count preference.now) (P.weak preference.now) }
    ensures { AreFirstRelated (P.count preference.now) (Violate (P.count preference.now)
        (P.weak preference.now) (P.strict preference.now)) result }
{
    for s in 0..preference.n() {
        if let Some(t) = first_violation_from(preference, closure, s) {
            return Some((s, t));
        }
    }
    None
}

/// The first observation with which `s` violates the axiom.
fn first_violation_from<P: Revealed>(preference: &P, closure: &Closure, s: u32) -> Option<u32>
    requires closed { IsClosureOf closure.now (P.count preference.now) (P.weak preference.now) }
    requires start { s < P.count preference.now }
    ensures { IsFirstOf (P.count preference.now) (Violate (P.count preference.now)
        (P.weak preference.now) (P.strict preference.now) s) result }
{
    for t in 0..preference.n() {
        if closure.reaches(s, t) && preference.is_strict(t, s) {
            return Some(t);
        }
    }
    None
}

/// A walk of fewest weak steps from `s` to `t`, which it reaches.
pub fn shortest_weak_walk<P: Revealed>(
    alloc: Global,
    preference: &P,
    s: u32,
    t: u32,
) -> Result<Seq<u32>, NoMemory>
    requires from { s < P.count preference.now }
    requires to { t < P.count preference.now }
    requires reached { Reaches (P.count preference.now) (P.weak preference.now) s t }
    ensures { IfOk result
        (IsShortestWalk (P.count preference.now) (P.weak preference.now) s t) }
{
    match shortest_walk(alloc, preference, Steps::Weak, s, t)? {
        Some(walk) => Ok(walk),
        None => unreachable!(),
    }
}
