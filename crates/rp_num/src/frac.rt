//! Fractions in lowest terms.
ghost use Rattle.std.specs.Prelude.{◌≡◌, ◌*◌, ◌/◌, ◌<◌, ◌≤◌, ◌↔◌, IfOk, OnErr, IsErr};
ghost use Rattle.rp_num.specs.Fraction.{FitsTerm, Fraction, IsLowestTerms, FitsWidth, PassesWidth};
ghost use Rattle.rp_num.specs.Fraction.{fraction_cmp};

use crate::Wide;
use crate::divisor::gcd;
use crate::order::cmp_products;
use std::cmp::Ordering;
use std::marker::Model;

/// The greatest part that a fraction may have, 2^127 - 1.
pub const FRACTION_WIDTH: u128 = (1 << 127) - 1;

/// A fraction in lowest terms. Its denominator is positive, and both parts are at most `FRACTION_WIDTH`.
#[derive(Clone, Copy, Debug, PartialEq, Eq)]
pub struct Frac {
    num: u128,
    den: u128,
}

impl Model for Frac {
    ghost use Rattle.rp_num.specs.Fraction.{Fraction, IsLowestTerms, FitsWidth};

    ghost Value = { Fraction };

    ghost view = { λ f. record { num = f.num; den = f.den } };

    ghost invariant = { λ f. IsLowestTerms f.num f.den (record { num = f.num; den = f.den })
        × FitsWidth (record { num = f.num; den = f.den }) };

    ghost inverse = { λ f. record { num = f.num; den = f.den } };
}

impl Frac {
    /// The fraction `num/den`, brought to lowest terms.
    pub fn new(num: u128, den: u128) -> Frac
        requires positive { 1 ≤ den }
        requires num_fits { FitsTerm num }
        requires den_fits { FitsTerm den }
        ensures lowest { IsLowestTerms num den result }
        ensures fits { FitsWidth result }
    {
        let common = gcd(num, den);
        Frac {
            num: num / common,
            den: den / common,
        }
    }

    /// The numerator in lowest terms.
    pub fn num(self) -> u128
        ensures value { result ≡ self.num }
        ensures lowest { IsLowestTerms self.num self.den self }
        ensures fits { FitsWidth self }
    {
        self.num
    }

    /// The denominator in lowest terms.
    pub fn den(self) -> u128
        ensures value { result ≡ self.den }
        ensures lowest { IsLowestTerms self.num self.den self }
        ensures fits { FitsWidth self }
    {
        self.den
    }

    /// The exact product in lowest terms. `Wide` where that passes the width of a fraction;
    /// common factors are cancelled across before anything is multiplied.
    pub fn mul(self, other: Frac) -> Result<Frac, Wide>
        ensures product { IfOk result (λ p.
            IsLowestTerms (self.num * other.num) (self.den * other.den) p) }
        ensures fits { IfOk result FitsWidth }
        ensures wide { IsErr result ↔ (PassesWidth (self.num * other.num) (self.den * other.den)) }
    {
        let down = gcd(self.num, other.den);
        let up = gcd(other.num, self.den);
        let num = product(quotient(self.num, down), quotient(other.num, up))?;
        let den = product(quotient(self.den, up), quotient(other.den, down))?;
        Ok(Frac { num, den })
    }

    /// The exact product with `num/den`, in lowest terms. `Wide` where that passes the width of a fraction.
    pub fn times(self, num: u64, den: u64) -> Result<Frac, Wide>
        requires { 1 ≤ den }
        ensures product { IfOk result (λ p. IsLowestTerms (self.num * num) (self.den * den) p) }
        ensures fits { IfOk result FitsWidth }
        ensures wide { IsErr result ↔ (PassesWidth (self.num * num) (self.den * den)) }
    {
        prove!(self.den() > 0);
        self.mul(Frac::new(u128::from(num), u128::from(den)))
    }

    /// The exact order of the two numbers, by their cross products.
    pub fn cmp(self, other: Frac) -> Ordering
        ensures { result ≡ fraction_cmp self other }
    {
        cmp_products(self.num, other.den, other.num, self.den)
    }
}

/// The quotient, with no division where the divisor is 1.
fn quotient(n: u128, by: u128) -> u128
    requires { 0 < by }
    ensures { result ≡ n / by }
{
    if by == 1 { n } else { n / by }
}

/// The product of two parts, within the width.
fn product(a: u128, b: u128) -> Result<u128, Wide>
    ensures value { IfOk result (λ p. p ≡ a * b) }
    ensures fits { IfOk result FitsTerm }
    ensures wide { OnErr result (¬ (FitsTerm (a * b))) }
{
    match a.checked_mul(b) {
        Some(p) if p <= FRACTION_WIDTH => Ok(p),
        _ => Err(Wide),
    }
}
