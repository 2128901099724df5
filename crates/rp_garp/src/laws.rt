//! Laws of the evidence that is given.
ghost use Rattle.std.specs.Prelude.{◌<◌, ◌↔◌, ℕ, List};
ghost use Rattle.rp_evidence.specs.Preference.{AgreeBelow, IsStrictAt, IsWeakAt};
ghost use Rattle.rp_evidence.specs.declared.garp.Garp.{Garp};
ghost use Rattle.rp_garp.specs.GarpVerdict.{IsOwnGarpVerdict};
ghost use Rattle.rp_pref.specs.Violation.{IsVerdictOfPreference};

use rp_evidence::Preference;

/// The evidence that is given depends on the preference between observations alone, whatever the preference is. So it
/// depends on the costs between observations alone, at every level and where each observation is held to its own.
pub fn given_evidence_depends_on_observed_costs<P: Preference, Q: Preference>()
    ensures of_a_preference { (n : ℕ) (verdict : Garp)
        → ((s t : ℕ) → s < n → t < n → P.weak s t ↔ Q.weak s t)
        → ((s t : ℕ) → s < n → t < n → P.strict s t ↔ Q.strict s t)
        → IsVerdictOfPreference n P.weak P.strict verdict
        → IsVerdictOfPreference n Q.weak Q.strict verdict }
    ensures at_a_level { (n num den : ℕ) (c d : ℕ → ℕ → ℕ) (verdict : Garp) → AgreeBelow n c d
        → IsVerdictOfPreference n (IsWeakAt c num den) (IsStrictAt c num den) verdict
        → IsVerdictOfPreference n (IsWeakAt d num den) (IsStrictAt d num den) verdict }
    ensures by_own_levels { (n : ℕ) (levels : List ℕ) (c d : ℕ → ℕ → ℕ) (verdict : Garp)
        → AgreeBelow n c d → IsOwnGarpVerdict n levels c verdict
        → IsOwnGarpVerdict n levels d verdict }
{}
