//! Revealed preference, as a trait and by levels.
ghost use Rattle.std.specs.Prelude.{◌≡◌, ◌<◌, ◌≤◌, ◌↔◌, ℕ, IsTrue};
ghost use Rattle.rp_evidence.specs.Preference.{IsLevel};
ghost use Rattle.rp_pref.specs.Steps.{StepOf};
ghost use Rattle.rp_limits.specs.declared.table.TheConstants.{RECORDS};

use crate::steps::{Steps, own_strict, own_weak, strict, weak};
use rp_evidence::Level;
use rp_table::Costs;

/// The preference between some observations that is revealed by what was bought, weak and strict.
pub trait Revealed {
    /// How many observations there are.
    ghost count: { Self → ℕ };

    /// Which observations are weakly preferred to which.
    ghost weak: { Self → ℕ → ℕ → Type 0 };

    /// Which observations are strictly preferred to which.
    ghost strict: { Self → ℕ → ℕ → Type 0 };

    /// How many observations there are.
    fn n(&self) -> u32
        ensures count { result ≡ count self.now }
        ensures few { result ≤ RECORDS };

    /// Whether `s` is weakly preferred to `t`.
    fn is_weak(&self, s: u32, t: u32) -> bool
        requires from { s < count self.now }
        requires to { t < count self.now }
        ensures { IsTrue result ↔ weak self.now s t };

    /// Whether `s` is strictly preferred to `t`.
    fn is_strict(&self, s: u32, t: u32) -> bool
        requires from { s < count self.now }
        requires to { t < count self.now }
        ensures { IsTrue result ↔ strict self.now s t };
}

/// The preference that a table of costs reveals at a level.
#[derive(Drop)]
pub struct AtLevel<'a> {
    pub costs: &'a Costs,
    pub level: Level,
    ghost valid: { IsLevel level.num level.den },
}

impl Revealed for AtLevel<'_> {
    ghost use Rattle.rp_pref.specs.Steps.{StrictAt, WeakAt};

    ghost count = { λ a. a.costs.now.n };

    ghost weak = { λ a. WeakAt a.costs.now a.level };

    ghost strict = { λ a. StrictAt a.costs.now a.level };

    fn n(&self) -> u32 {
        self.costs.n()
    }

    fn is_weak(&self, s: u32, t: u32) -> bool {
        weak(self.costs, self.level, s, t)
    }

    fn is_strict(&self, s: u32, t: u32) -> bool {
        strict(self.costs, self.level, s, t)
    }
}

/// The preference that a table of costs reveals where each observation is held to its own level, or, where the table
/// has no levels, to all that it spent.
#[derive(Drop)]
pub struct OwnLevels<'a> {
    pub costs: &'a Costs,
}

impl Revealed for OwnLevels<'_> {
    ghost use Rattle.rp_pref.specs.Steps.{OwnStrict, OwnWeak};

    ghost count = { λ o. o.costs.now.n };

    ghost weak = { λ o. OwnWeak o.costs.now };

    ghost strict = { λ o. OwnStrict o.costs.now };

    fn n(&self) -> u32 {
        self.costs.n()
    }

    fn is_weak(&self, s: u32, t: u32) -> bool {
        own_weak(self.costs, s, t)
    }

    fn is_strict(&self, s: u32, t: u32) -> bool {
        own_strict(self.costs, s, t)
    }
}

/// Whether there is a step of the chosen kind from `s` to `t`.
pub(crate) fn has_step<P: Revealed>(preference: &P, steps: Steps, s: u32, t: u32) -> bool
    requires from { s < P.count preference.now }
    requires to { t < P.count preference.now }
    ensures { IsTrue result ↔ StepOf steps (P.weak preference.now) (P.strict preference.now) s t }
{
    match steps {
        Steps::Weak => preference.is_weak(s, t),
        Steps::Strict => preference.is_strict(s, t),
    }
}
