//! Fractions of a row, and their texts.
ghost use Rattle.std.specs.Prelude.{◌≡◌, ◌≤◌, IfOk, OnOk, ◌++◌, ◌∷◌, [], ◌/◌, ◌%◌, ◌+◌};
ghost use Rattle.rp_num.specs.Fraction.{fraction_text};
ghost use Rattle.rp_rows.specs.Floors.{digit_of, floor_text};

use rp_num::{NoMemory, print_u128};
use std::alloc::Global;
use std::marker::Model;

/// A fraction with a positive denominator, as it was found.
#[derive(Clone, Copy, Debug)]
pub struct Ratio {
    num: u64,
    den: u64,
}

impl Model for Ratio {
    ghost use Rattle.std.specs.Prelude.{◌≤◌};
    ghost use Rattle.rp_num.specs.Fraction.{Fraction};

    ghost Value = { Fraction };

    ghost view = { λ f. record { num = f.num; den = f.den } };

    ghost invariant = { λ f. 1 ≤ f.den };

    ghost inverse = { λ f. record { num = f.num; den = f.den } };
}

impl Ratio {
    /// The fraction `num/den`.
    pub fn new(num: u64, den: u64) -> Ratio
        requires { 1 ≤ den }
        ensures { result ≡ record { num = num; den = den } }
    {
        Ratio { num, den }
    }

    /// Its text: the numerator alone where the denominator is 1.
    pub(crate) fn text(self, alloc: Global) -> Result<Vec<u8>, NoMemory>
        ensures { IfOk result (λ text. text.items ≡ fraction_text self) }
    {
        let mut text = Vec::new(alloc);
        print_u128(alloc, &mut text, u128::from(self.num))?;
        if self.den == 1 {
            return Ok(text);
        }
        text.push(b'/')?;
        print_u128(alloc, &mut text, u128::from(self.den))?;
        Ok(text)
    }

    /// Its text with six places, rounded down.
    pub(crate) fn floor_text(self, alloc: Global) -> Result<Vec<u8>, NoMemory>
        ensures { IfOk result (λ text. text.items ≡ floor_text self) }
    {
        let millionths = u128::from(self.num) * 1_000_000 / u128::from(self.den);
        let mut text = Vec::new(alloc);
        print_u128(alloc, &mut text, millionths / 1_000_000)?;
        text.push(b'.')?;
        text.push(digit_of(millionths / 100_000))?;
        text.push(digit_of(millionths / 10_000))?;
        text.push(digit_of(millionths / 1_000))?;
        text.push(digit_of(millionths / 100))?;
        text.push(digit_of(millionths / 10))?;
        text.push(digit_of(millionths))?;
        Ok(text)
    }
}

/// The last digit of a number.
fn digit_of(n: u128) -> u8
    ensures { result ≡ digit_of n }
{
    b'0' + (n % 10) as u8
}
