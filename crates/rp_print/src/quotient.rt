//! Quotients in lowest terms.
ghost use Rattle.std.specs.Prelude.{◌≡◌, ◌≤◌};
ghost use Rattle.rp_num.specs.Fraction.{FitsTerm};
ghost use Rattle.rp_print.specs.LowestTerms.{lowest_terms};

use rp_num::Frac;

/// `num/den` in lowest terms.
pub fn lowest_terms(num: u128, den: u128) -> Frac
    requires positive { 1 ≤ den }
    requires num_fits { FitsTerm num }
    requires den_fits { FitsTerm den }
    ensures { result ≡ lowest_terms num den }
{
    Frac::new(num, den)
}
