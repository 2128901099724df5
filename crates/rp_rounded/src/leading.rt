//! The first binary digits of a quotient.
ghost use Rattle.std.specs.Prelude.{◌≡◌, ◌+◌, ◌*◌, ◌^◌, ◌<◌, ◌≤◌, IfSome};
ghost use Rattle.rp_rounded.specs.Rounded.{IsLeading};

/// The least number of 60 binary digits.
const LEAST: u128 = 1 << 59;

/// The first binary digits of a quotient: `lead/2^places`.
#[derive(Clone, Copy)]
pub struct Leading {
    pub lead: u128,
    pub places: u32,
}

/// What a quotient has before its point, and then digit for digit, with the rest of the division.
#[derive(Clone, Copy)]
struct Division {
    whole: u128,
    rest: u128,
}

/// The division with one binary digit more.
fn one_digit_more(division: Division, den: u128) -> Division
    requires rest { division.rest < den }
    requires den { den ≤ 2 ^ 126 }
    requires whole { division.whole < 2 ^ 59 }
    ensures exact { result.whole * den + result.rest ≡ 2 * (division.whole * den + division.rest) }
    ensures rest { result.rest < den }
    ensures below { result.whole < 2 ^ 60 }
{
    let doubled = 2 * division.rest;
    if doubled < den {
        Division {
            whole: 2 * division.whole,
            rest: doubled,
        }
    } else {
        Division {
            whole: 2 * division.whole + 1,
            rest: doubled - den,
        }
    }
}

/// The first 60 binary digits of `num/den`. None where it is 2^60 or more, or too small to have 60 among its first 180
/// places.
pub fn first_digits(num: u128, den: u128) -> Option<Leading>
    requires positive { 1 ≤ den }
    requires den { den ≤ 2 ^ 126 }
    ensures leading { IfSome result (λ l. IsLeading num den l.lead l.places) }
    ensures few { IfSome result (λ l. l.places < 180) }
{
    let mut division = Division {
        whole: num / den,
        rest: num % den,
    };
    if division.whole >= 2 * LEAST {
        return None;
    }
    for places in 0..180u32 {
        if division.whole >= LEAST {
            return Some(Leading {
                lead: division.whole,
                places,
            });
        }
        division = one_digit_more(division, den);
    }
    None
}
