//! Laws over values of observations. Each function is empty: its contract is the law.
ghost use Rattle.std.specs.Prelude.{ℕ, ℤ, List};
ghost use Rattle.rp_evidence.specs.Homothetic.{BoundProducts, MeetsHomotheticTest};
ghost use Rattle.rp_evidence.specs.Quasilinear.{BoundSteps, MeetsQuasilinearTest};
ghost use Rattle.rp_num.specs.Fraction.{Fraction};

/// Values that bound every step leave no closed walk with a negative sum.
pub fn bound_steps_meet_quasilinear_test()
    ensures { (n : ℕ) (c : ℕ → ℕ → ℕ) (values : List ℤ)
        → BoundSteps n c values → MeetsQuasilinearTest n c }
{}

/// Positive values that bound every product leave no closed walk with a product below 1.
pub fn bound_products_meet_homothetic_test()
    ensures { (n : ℕ) (c : ℕ → ℕ → ℕ) (values : List Fraction)
        → BoundProducts n c values → MeetsHomotheticTest n c }
{}
