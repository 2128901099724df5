//! Whether the generalized axiom holds, without evidence.
ghost use Rattle.std.specs.Prelude.{◌≡◌, ◌<◌, ◌↔◌, [], ℕ, IfOk, IsFalse, IsTrue};
ghost use Rattle.rp_evidence.specs.Garp.{HasNoViolation, MeetsGarp};
ghost use Rattle.rp_pref.specs.Closure.{IsClosureOf};
ghost use Rattle.rp_pref.specs.Steps.{OwnStrict, OwnWeak};
ghost use Rattle.rp_table.specs.Cost.{cost_at};
ghost use Rattle.rp_evidence.specs.Garp.{HasSomeViolation};
ghost use Rattle.rp_garp.specs.InnerMeeting.{SomeViolate, SomeViolateAt};

use rp_num::NoMemory;
use rp_pref::{Closure, OwnLevels, Revealed, Steps};
use rp_table::Costs;
use std::alloc::Global;

/// Whether the generalized axiom of revealed preference holds (Varian 1982), each observation held to its own level, or
/// to all that it spent: the verdict of `garp` without its evidence.
pub fn meets_garp(alloc: Global, costs: &Costs) -> Result<bool, NoMemory>
    ensures own { IfOk result (λ holds. IsTrue holds
        ↔ HasNoViolation costs.now.n (OwnWeak costs.now) (OwnStrict costs.now)) }
    ensures own_violated { IfOk result (λ holds. IsFalse holds
        ↔ HasSomeViolation costs.now.n (OwnWeak costs.now) (OwnStrict costs.now)) }
    ensures without_levels { IfOk result (λ holds. costs.now.levels ≡ []
        → IsTrue holds ↔ MeetsGarp costs.now.n (cost_at costs.now)) }
{
    meets_garp_over(alloc, &OwnLevels { costs })
}

/// Whether a preference has no violation of the axiom.
pub fn meets_garp_over<P: Revealed>(alloc: Global, preference: &P) -> Result<bool, NoMemory>
    requires strict_is_weak { (s t : ℕ) → s < P.count preference.now → t < P.count preference.now
        → P.strict preference.now s t → P.weak preference.now s t }
    ensures holds { IfOk result (λ holds. IsTrue holds ↔ HasNoViolation (P.count preference.now)
        (P.weak preference.now) (P.strict preference.now)) }
    ensures violated { IfOk result (λ holds. IsFalse holds
        ↔ HasSomeViolation (P.count preference.now)
        (P.weak preference.now) (P.strict preference.now)) }
{
    let closure = Closure::over(alloc, preference, Steps::Weak)?;
    Ok(!is_violated(preference, &closure))
}

/// Whether any two observations violate the axiom.
fn is_violated<P: Revealed>(preference: &P, closure: &Closure) -> bool
    requires { IsClosureOf closure.now (P.count preference.now) (P.weak preference.now) }
    ensures { IsTrue result ↔ SomeViolate (P.count preference.now)
        (P.weak preference.now) (P.strict preference.now) }
{
    for t in 0..preference.n() {
        if is_violated_at(preference, closure, t) {
            return true;
        }
    }
    false
}

/// Whether any observation reaches `t`, which is strictly preferred to it.
fn is_violated_at<P: Revealed>(preference: &P, closure: &Closure, t: u32) -> bool
    requires closed { IsClosureOf closure.now (P.count preference.now) (P.weak preference.now) }
    requires end { t < P.count preference.now }
    ensures { IsTrue result ↔ SomeViolateAt (P.count preference.now)
        (P.weak preference.now) (P.strict preference.now) t }
{
    for s in 0..preference.n() {
        if preference.is_strict(t, s) && closure.reaches(s, t) {
            return true;
        }
    }
    false
}
