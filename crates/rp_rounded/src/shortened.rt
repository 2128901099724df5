//! Numbers as a short part times a power of two.
ghost use Rattle.std.specs.Prelude.{◌≡◌, ◌*◌, ◌^◌, ◌<◌, ◌≤◌, IfSome};
ghost use Rattle.rp_num.specs.Fraction.{Fraction, IsLowestTerms};

use rp_num::Frac;

/// A number times a power of two.
#[derive(Clone, Copy)]
pub struct Shortened {
    pub part: u128,
    pub twos: u32,
}

/// A number of 60 binary digits, or of 61 that end in 0, and the power of two that it has to be multiplied by to be
/// `n`, where there is one.
pub fn without_twos(n: u128) -> Option<Shortened>
    requires { 1 ≤ n }
    ensures value { IfSome result (λ s. s.part * 2 ^ s.twos ≡ n) }
    ensures positive { IfSome result (λ s. 1 ≤ s.part) }
    ensures short { IfSome result (λ s. s.part ≤ 2 ^ 60) }
    ensures few { IfSome result (λ s. s.twos ≤ 128) }
{
    let mut part = n;
    for twos in 0..129u32 {
        if part <= 1 << 60 {
            return Some(Shortened { part, twos });
        }
        if part % 2 != 0 {
            return None;
        }
        part /= 2;
    }
    None
}

/// The fraction `num/2^places` in lowest terms, where its denominator is below 2^120.
pub fn over_twos(num: u128, places: u32) -> Option<Frac>
    requires { num < 2 ^ 60 }
    ensures { IfSome result (IsLowestTerms num (2 ^ places)) }
{
    let mut part = num;
    let mut twos = places;
    while twos > 0 && part % 2 == 0 {
        part /= 2;
        twos -= 1;
    }
    if twos >= 120 {
        return None;
    }
    Some(Frac::new(part, 1 << twos))
}
