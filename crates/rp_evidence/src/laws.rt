//! Laws of preferences: ranks, violations and walks.
ghost use Rattle.std.specs.Prelude.{◌≡◌, ◌↔◌, ◌<◌, ◌≤◌, ◌*◌, ◌++◌, ◌∷◌, [], ℕ, List, length};
ghost use Rattle.std.specs.Prelude.{Contains, slice_index};
ghost use Rattle.rp_evidence.specs.AfriatEvidence.{ProvesAfriat, ProvesOwnAfriat};
ghost use Rattle.rp_evidence.specs.Count.{AreCounts, IsCount};
ghost use Rattle.rp_evidence.specs.Efficiency.{ProvesEfficiency};
ghost use Rattle.rp_evidence.specs.Garp.{HasNoViolation, IsViolation, IsViolationAt, ProvesGarp};
ghost use Rattle.rp_evidence.specs.Garp.{ProvesOfPreference, ProvesOwnGarp, ViolatesByPlaces};
ghost use Rattle.rp_evidence.specs.Homothetic.{ProvesHomothetic};
ghost use Rattle.rp_evidence.specs.Input.{AgreeInputs, TableInput};
ghost use Rattle.rp_evidence.specs.Preference.{AgreeBelow, IsStrict, IsStrictAt, IsWeak, IsWeakAt, StrictByLevels};
ghost use Rattle.rp_evidence.specs.Preference.{WeakByLevels};
ghost use Rattle.rp_evidence.specs.Proves.{Proves};
ghost use Rattle.rp_evidence.specs.Quasilinear.{ProvesQuasilinear};
ghost use Rattle.rp_evidence.specs.Ranks.{OrderSteps, OrderStrictSteps, RespectPreference};
ghost use Rattle.rp_evidence.specs.Walk.{IsClosedWalk, IsWalk, Reaches};
ghost use Rattle.rp_evidence.specs.declared.afriat.AfriatPart.{AfriatPart};
ghost use Rattle.rp_evidence.specs.declared.garp.Garp.{Garp};
ghost use Rattle.rp_evidence.specs.declared.certificate.Item.{Item};
ghost use Rattle.rp_evidence.specs.declared.efficiency.Efficiency.{Efficiency};
ghost use Rattle.rp_evidence.specs.declared.homothetic.Homothetic.{Homothetic};
ghost use Rattle.rp_evidence.specs.declared.quasilinear.Quasi.{Quasi};

use crate::relations::{Preference, Relation};

/// Ranks that respect a preference exclude every violation of it.
pub fn ranks_exclude_violations<P: Preference>()
    ensures { (n : ℕ) (ranks walk : List ℕ)
        → RespectPreference n P.weak P.strict ranks → ¬ IsViolation n P.weak P.strict walk }
{}

/// Ranks that order the strict steps of a level exclude every violation at each smaller level.
pub fn ordering_ranks_exclude_violations_below()
    ensures { (n num den num' den' : ℕ) (c : ℕ → ℕ → ℕ) (ranks walk : List ℕ)
        → ((s : ℕ) → s < n → 0 < c s s) → num' * den < num * den'
        → OrderStrictSteps n c num den ranks → ¬ IsViolationAt n c num' den' walk }
{}

/// A walk that is a violation at some level stays one as the level rises.
pub fn violations_last_above()
    ensures { (n num den num' den' : ℕ) (c : ℕ → ℕ → ℕ) (walk : List ℕ)
        → 0 < den → 0 < den' → num * den' ≤ num' * den
        → IsViolationAt n c num den walk → IsViolationAt n c num' den' walk }
{}

/// A closed walk of weak steps at a level is a violation at every greater level.
pub fn weak_cycles_violate_above()
    ensures { (n num den num' den' : ℕ) (c : ℕ → ℕ → ℕ) (walk : List ℕ)
        → ((s : ℕ) → s < n → 0 < c s s) → num * den' < num' * den
        → IsClosedWalk n (IsWeakAt c num den) walk → IsViolationAt n c num' den' walk }
{}

/// A walk is a violation exactly where it is one by places.
pub fn violations_by_places<P: Preference>()
    ensures { (n : ℕ) (walk : List ℕ)
        → IsViolation n P.weak P.strict walk ↔ ViolatesByPlaces n P.weak P.strict walk }
{}

/// A violation can be walked from each observation on it: turned so, it is a violation of the same length.
pub fn violations_turn<P: Preference>()
    ensures { (n : ℕ) (walk : List ℕ) (s : ℕ)
        → IsViolation n P.weak P.strict walk → Contains walk s
        → (turned : List ℕ) × IsViolation n P.weak P.strict turned
        × (slice_index turned 0 ≡ s) × (length turned ≡ length walk) }
{}

/// At the level 1 each observation is weakly preferred to itself.
pub fn weak_to_itself()
    ensures { (c : ℕ → ℕ → ℕ) (s : ℕ) → IsWeak c s s }
{}

/// Where the observations have no levels of their own, the preference is that at the level 1.
pub fn no_levels_are_level_one()
    ensures weak { (c : ℕ → ℕ → ℕ) (s t : ℕ)
        → WeakByLevels [] c s t ↔ IsWeak c s t }
    ensures strict { (c : ℕ → ℕ → ℕ) (s t : ℕ)
        → StrictByLevels [] c s t ↔ IsStrict c s t }
    ensures garp { (n : ℕ) (c : ℕ → ℕ → ℕ) (verdict : Garp)
        → ProvesOfPreference n (WeakByLevels [] c) (StrictByLevels [] c) verdict
        ↔ ProvesGarp n c verdict }
{}

/// What is strictly preferred at a level is weakly preferred at it.
pub fn strict_is_weak()
    ensures { (num den s t : ℕ) (c : ℕ → ℕ → ℕ)
        → IsStrictAt c num den s t → IsWeakAt c num den s t }
{}

/// A walk of weak steps and a strict step, which is a weak one too, from its end back to its beginning make a
/// violation.
pub fn walk_and_strict_step_violate<P: Preference>()
    ensures { (n s t : ℕ) (walk : List ℕ)
        → IsWalk n P.weak s t walk → P.weak t s → P.strict t s
        → IsViolation n P.weak P.strict (walk ++ s ∷ []) }
{}

/// Where there is a violation, some observation reaches one that is strictly preferred to it.
pub fn violations_have_walk_and_strict_step<P: Preference>()
    ensures { (n : ℕ) (walk : List ℕ) → IsViolation n P.weak P.strict walk
        → (s : ℕ) × (t : ℕ) × Reaches n P.weak s t × P.strict t s }
{}

/// An observation has one count only.
pub fn counts_are_unique<R: Relation>()
    ensures { (n s j k : ℕ) → IsCount n R.step s j → IsCount n R.step s k → j ≡ k }
{}

/// The counts respect a preference, of which strict steps are weak, where it has no violation.
pub fn counts_respect<P: Preference>()
    ensures { (n : ℕ) (counts : List ℕ)
        → ((s t : ℕ) → s < n → t < n → P.strict s t → P.weak s t)
        → AreCounts n P.weak counts → HasNoViolation n P.weak P.strict
        → RespectPreference n P.weak P.strict counts }
{}

/// The counts over the steps of a relation order these where no closed walk of them exists.
pub fn step_counts_order<R: Relation>()
    ensures { (n : ℕ) (counts : List ℕ)
        → AreCounts n R.step counts → ((walk : List ℕ) → ¬ IsClosedWalk n R.step walk)
        → OrderSteps n R.step counts }
{}

/// Evidence on costs depends on those between observations alone.
pub fn evidence_depends_on_observed_costs()
    ensures garp { (n : ℕ) (c d : ℕ → ℕ → ℕ) (verdict : Garp)
        → AgreeBelow n c d → ProvesGarp n c verdict → ProvesGarp n d verdict }
    ensures afriat { (n : ℕ) (c d : ℕ → ℕ → ℕ) (part : AfriatPart)
        → AgreeBelow n c d → ProvesAfriat n c part → ProvesAfriat n d part }
    ensures garp_by_levels { (n : ℕ) (levels : List ℕ) (c d : ℕ → ℕ → ℕ) (verdict : Garp)
        → AgreeBelow n c d → ProvesOwnGarp n levels c verdict → ProvesOwnGarp n levels d verdict }
    ensures afriat_by_levels { (n : ℕ) (levels : List ℕ) (c d : ℕ → ℕ → ℕ) (part : AfriatPart)
        → AgreeBelow n c d → ProvesOwnAfriat n levels c part → ProvesOwnAfriat n levels d part }
    ensures efficiency { (n : ℕ) (c d : ℕ → ℕ → ℕ) (evidence : Efficiency)
        → AgreeBelow n c d → ProvesEfficiency n c evidence → ProvesEfficiency n d evidence }
    ensures homothetic { (n : ℕ) (c d : ℕ → ℕ → ℕ) (verdict : Homothetic)
        → AgreeBelow n c d → ProvesHomothetic n c verdict → ProvesHomothetic n d verdict }
    ensures quasilinear { (n : ℕ) (c d : ℕ → ℕ → ℕ) (verdict : Quasi)
        → AgreeBelow n c d → ProvesQuasilinear n c verdict → ProvesQuasilinear n d verdict }
{}

/// Evidence depends on the prices and the quantities of the observations alone.
pub fn evidence_depends_on_observations()
    ensures { (input other : TableInput) (item : Item)
        → AgreeInputs input other → Proves input item → Proves other item }
{}
