//! Laws over fractions that the crates above cite. Each function is empty: its contract is the law.
ghost use Rattle.std.specs.Prelude.{◌≡◌, ℕ, ◌≤◌, ◌↔◌};
ghost use Rattle.rp_num.specs.Fraction.{Fraction, IsLowestTerms, FitsWidth, PassesWidth};
ghost use Rattle.rp_num.specs.Fraction.{SameNumber};

/// Each fraction with a positive denominator has lowest terms, and only one.
pub fn lowest_terms_are_unique()
    ensures exist { (n d : ℕ) → 1 ≤ d → (f : Fraction) × IsLowestTerms n d f }
    ensures unique { (n d : ℕ) (f g : Fraction) → 1 ≤ d
        → IsLowestTerms n d f → IsLowestTerms n d g → f ≡ g }
{}

/// Two fractions in lowest terms are one fraction exactly where their cross products are equal.
pub fn cross_products_decide()
    ensures { (f g : Fraction)
        → IsLowestTerms f.num f.den f → IsLowestTerms g.num g.den g → (f ≡ g) ↔ SameNumber f g }
{}

/// A number passes the width exactly where its lowest terms do not fit.
pub fn lowest_terms_decide_width()
    ensures { (n d : ℕ) (f : Fraction) → 1 ≤ d
        → IsLowestTerms n d f → PassesWidth n d ↔ (¬ (FitsWidth f)) }
{}
