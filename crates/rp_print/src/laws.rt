//! Laws over what reports cite. Each function is empty: its contract is the law.
ghost use Rattle.std.specs.Prelude.{ℕ, ◌≤◌};
ghost use Rattle.rp_num.specs.Fraction.{IsLowestTerms};
ghost use Rattle.rp_print.specs.LowestTerms.{lowest_terms};

/// Euclid's steps bring each fraction with a positive denominator to its lowest terms.
pub fn euclid_gives_lowest_terms()
    ensures { (n d : ℕ) → 1 ≤ d → IsLowestTerms n d (lowest_terms n d) }
{}
