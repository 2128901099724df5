//! Laws of linear programs: equal pairs are best, and rays leave no bound.
ghost use Rattle.std.specs.Prelude.{ℕ};
ghost use Rattle.rp_farkas.specs.LinearProgram.{LinearProgram};
ghost use Rattle.rp_farkas.specs.Point.{IsFeasiblePoint};
ghost use Rattle.rp_farkas.specs.EqualPair.{IsEqualPair};
ghost use Rattle.rp_farkas.specs.Ray.{IsRay};
ghost use Rattle.rp_farkas.specs.Best.{IsBestPoint, IsBestPrices, HasNoBound};

/// Weak duality (Gale, Kuhn and Tucker 1951): both sides of an equal pair are best, over all fractions.
pub fn equal_pairs_are_best()
    ensures point { (p : LinearProgram) (den : ℕ) (y x : ℕ → ℕ)
        → IsEqualPair p den y x → IsBestPoint p den y }
    ensures prices { (p : LinearProgram) (den : ℕ) (y x : ℕ → ℕ)
        → IsEqualPair p den y x → IsBestPrices p den x }
{}

/// Where there is a feasible point and a ray (Farkas 1902), feasible points pass every value.
pub fn rays_leave_no_bound()
    ensures { (p : LinearProgram) (den : ℕ) (y r : ℕ → ℕ)
        → IsFeasiblePoint p den y → IsRay p r → HasNoBound p }
{}
