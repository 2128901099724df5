//! Amounts in the units of a file, and their texts.
ghost use Rattle.std.specs.Prelude.{◌≡◌, ◌+◌, ◌-◌, ◌*◌, ◌/◌, ◌%◌, ◌^◌, ◌<◌, ◌≤◌, IfOk, ◌++◌, ◌∷◌, []};
ghost use Rattle.rp_num.specs.Fraction.{fraction_text};
ghost use Rattle.rp_rows.specs.Floors.{digit_of, floor_text, millionths, places_text};
ghost use Rattle.rp_bound_rows.specs.Amounts.{IsInUnits, ceiling_millionths, ceiling_text};

use rp_num::{NoMemory, gcd, print_u128};
use std::alloc::Global;
use std::marker::Model;

/// An amount of a good or of money in the units of a file: a fraction in lowest terms.
#[derive(Clone, Copy, Debug)]
pub struct Amount {
    num: u128,
    den: u128,
}

impl Model for Amount {
    ghost use Rattle.std.specs.Prelude.{◌<◌, ◌≤◌, ◌^◌};
    ghost use Rattle.rp_num.specs.Fraction.{Fraction};

    ghost Value = { Fraction };

    ghost view = { λ f. record { num = f.num; den = f.den } };

    ghost invariant = { λ f. (1 ≤ f.den) × (f.num < 2 ^ 107) × (f.den < 2 ^ 104) };

    ghost inverse = { λ f. record { num = f.num; den = f.den } };
}

impl Amount {
    /// What the scaled number `num/den` is in the units of its file, where its scale has so many places.
    pub fn in_units(num: u128, den: u128, places: u32) -> Amount
        requires positive { 1 ≤ den }
        requires num_small { num < 2 ^ 107 }
        requires den_small { den < 2 ^ 64 }
        requires few { places ≤ 12 }
        ensures { IsInUnits places num den result }
    {
        let whole = den * ten_to(places);
        prove!(whole > 0);
        let common = gcd(num, whole);
        Amount {
            num: num / common,
            den: whole / common,
        }
    }

    /// Its text: the numerator alone where the denominator is 1.
    pub(crate) fn text(self, alloc: Global) -> Result<Vec<u8>, NoMemory>
        ensures { IfOk result (λ text. text.items ≡ fraction_text self) }
    {
        let mut text = Vec::new(alloc);
        print_u128(alloc, &mut text, self.num)?;
        if self.den == 1 {
            return Ok(text);
        }
        text.push(b'/')?;
        print_u128(alloc, &mut text, self.den)?;
        Ok(text)
    }

    /// Its text with six places, rounded down.
    pub(crate) fn floor_text(self, alloc: Global) -> Result<Vec<u8>, NoMemory>
        ensures { IfOk result (λ text. text.items ≡ floor_text self) }
    {
        let millionths = self.num * 1_000_000 / self.den;
        places_text(alloc, millionths)
    }

    /// Its text with six places, rounded up.
    pub(crate) fn ceiling_text(self, alloc: Global) -> Result<Vec<u8>, NoMemory>
        ensures { IfOk result (λ text. text.items ≡ ceiling_text self) }
    {
        let millionths = (self.num * 1_000_000 + (self.den - 1)) / self.den;
        places_text(alloc, millionths)
    }
}

/// So many millionths as a number with six places.
fn places_text(alloc: Global, millionths: u128) -> Result<Vec<u8>, NoMemory>
    ensures { IfOk result (λ text. text.items ≡ places_text millionths) }
{
    let mut text = Vec::new(alloc);
    print_u128(alloc, &mut text, millionths / 1_000_000)?;
    text.push(b'.')?;
    text.push(digit_of(millionths / 100_000))?;
    text.push(digit_of(millionths / 10_000))?;
    text.push(digit_of(millionths / 1_000))?;
    text.push(digit_of(millionths / 100))?;
    text.push(digit_of(millionths / 10))?;
    text.push(digit_of(millionths))?;
    Ok(text)
}

/// The last digit of a number.
fn digit_of(n: u128) -> u8
    ensures { result ≡ digit_of n }
{
    b'0' + (n % 10) as u8
}

/// The power of ten with that exponent.
fn ten_to(places: u32) -> u128
    requires { places ≤ 12 }
    ensures power { result ≡ 10 ^ places }
    ensures positive { 1 ≤ result }
    ensures small { result < 2 ^ 40 }
{
    10u128.pow(places)
}
