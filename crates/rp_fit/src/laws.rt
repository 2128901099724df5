//! Each index is one number.
ghost use Rattle.std.specs.Prelude.{◌≡◌, ◌*◌, ◌<◌, ℕ};
ghost use Rattle.rp_fit.specs.Kept.{IsHoutmanMaksIndex};
ghost use Rattle.rp_fit.specs.QuasilinearLevel.{IsQuasilinearLevel};
ghost use Rattle.rp_fit.specs.Steps.{IsLeastStepsCost};
ghost use Rattle.rp_fit.specs.Violations.{IsNumberOfPairs};

use rp_evidence::Relation;

/// The pairs of observations that stand in a relation have one number.
pub fn violating_pairs_have_one_number<R: Relation>()
    ensures { (n j k : ℕ) → IsNumberOfPairs n R.step j → IsNumberOfPairs n R.step k → j ≡ k }
{}

/// The largest consistent sets have one number of observations.
pub fn houtman_maks_index_is_unique()
    ensures { (n : ℕ) (c : ℕ → ℕ → ℕ) (j k : ℕ)
        → IsHoutmanMaksIndex n c j → IsHoutmanMaksIndex n c k → j ≡ k }
{}

/// The least cost of strict steps whose removal is enough is one number.
pub fn least_steps_cost_is_unique()
    ensures { (n : ℕ) (c : ℕ → ℕ → ℕ) (j k : ℕ)
        → IsLeastStepsCost n c j → IsLeastStepsCost n c k → j ≡ k }
{}

/// Two fractions that are the quasilinear level of the same costs, none of them 0, are equal.
pub fn quasilinear_levels_are_equal()
    ensures { (n num den num' den' : ℕ) (c : ℕ → ℕ → ℕ)
        → ((s : ℕ) → s < n → 0 < c s s)
        → IsQuasilinearLevel n c num den → IsQuasilinearLevel n c num' den'
        → num * den' ≡ num' * den }
{}
