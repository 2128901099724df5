//! Laws of the efficiency index: it exists, is unique, and is a threshold.
ghost use Rattle.std.specs.Prelude.{◌↔◌, ◌<◌, ◌≤◌, ℕ};
ghost use Rattle.rp_num.specs.Fraction.{Fraction, IsLowestTerms, SameNumber};
ghost use Rattle.rp_evidence.specs.Efficiency.{IsEfficiencyIndex, IsLeastGreatestRatio};

/// Every table of positive costs has an efficiency index, and only one.
pub fn efficiency_index_is_unique()
    ensures exists { (n : ℕ) (c : ℕ → ℕ → ℕ)
        → 1 ≤ n → ((s t : ℕ) → s < n → t < n → 0 < c s t)
        → (f : Fraction) × IsLowestTerms f.num f.den f × IsEfficiencyIndex n c f.num f.den }
    ensures unique { (n : ℕ) (c : ℕ → ℕ → ℕ) (f g : Fraction)
        → IsEfficiencyIndex n c f.num f.den → IsEfficiencyIndex n c g.num g.den → SameNumber f g }
{}

/// Each closed walk has a greatest ratio on its steps; the efficiency index is the least of these ratios.
pub fn efficiency_index_is_threshold()
    ensures { (n num den : ℕ) (c : ℕ → ℕ → ℕ)
        → 1 ≤ n → ((s t : ℕ) → s < n → t < n → 0 < c s t)
        → IsEfficiencyIndex n c num den ↔ IsLeastGreatestRatio n c num den }
{}
