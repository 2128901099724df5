//! Greatest common divisors, and lowest terms.
ghost use Rattle.std.specs.Prelude.{◌≡◌, ◌%◌, ◌<◌, ◌≤◌, ◌↔◌};
ghost use Rattle.std.specs.Int.{IsGcd};
ghost use Rattle.rp_num.specs.Fraction.{IsLowestTerms};

/// The greatest number of one word.
const MOST_WORD: u128 = (1 << 64) - 1;

/// The greatest common divisor, by the binary algorithm (Stein 1967). It is 0 for two zeros.
pub fn gcd(a: u128, b: u128) -> u128
    ensures greatest { IsGcd a b result }
    ensures zero { (result ≡ 0) ↔ ((a ≡ 0) × (b ≡ 0)) }
{
    if a < b {
        ordered_gcd(a, b)
    } else {
        ordered_gcd(b, a)
    }
}

/// The ratio of two words, numerator and denominator, in lowest terms.
pub fn in_lowest_terms(num: u64, den: u64) -> (u64, u64)
    requires { 1 ≤ den }
    ensures lowest { IsLowestTerms num den (record { num = result.0; den = result.1 }) }
    ensures small { result.1 ≤ den }
{
    let part = u128::from(num);
    let whole = u128::from(den);
    let common = gcd(part, whole);
    ((part / common) as u64, (whole / common) as u64)
}

/// The greatest common divisor, where the lesser number stands first.
fn ordered_gcd(small: u128, large: u128) -> u128
    requires { small ≤ large }
    ensures { IsGcd small large result }
{
    if small == 0 {
        return large;
    }
    if small == 1 {
        return 1;
    }
    let twos = small.trailing_zeros();
    let shared = twos.min(large.trailing_zeros());
    odd_gcd(small >> twos, large) << shared
}

/// The greatest common divisor of an odd number and another, in one word as soon as both fit.
fn odd_gcd(odd: u128, other: u128) -> u128
    requires { odd % 2 ≡ 1 }
    ensures { IsGcd odd other result }
{
    if odd > MOST_WORD {
        wide_gcd(odd, other % odd)
    } else if other > MOST_WORD {
        u128::from(word_gcd(odd as u64, (other % odd) as u64))
    } else {
        u128::from(word_gcd(odd as u64, other as u64))
    }
}

/// The greatest common divisor of an odd number and another, by halving and differences, down to one word.
fn wide_gcd(odd: u128, other: u128) -> u128
    requires { odd % 2 ≡ 1 }
    ensures { IsGcd odd other result }
{
    let mut x = odd;
    let mut y = other;
    while y > 0 && (x > MOST_WORD || y > MOST_WORD) {
        let z = y >> y.trailing_zeros();
        if z < x {
            y = x - z;
            x = z;
        } else {
            y = z - x;
        }
    }
    if y == 0 {
        return x;
    }
    u128::from(word_gcd(x as u64, y as u64))
}

/// The greatest common divisor of an odd number and another, in one word.
fn word_gcd(odd: u64, other: u64) -> u64
    requires { odd % 2 ≡ 1 }
    ensures { IsGcd odd other result }
{
    let mut x = odd;
    let mut y = other;
    while y > 0 {
        let z = y >> y.trailing_zeros();
        if z < x {
            y = x - z;
            x = z;
        } else {
            y = z - x;
        }
    }
    x
}
