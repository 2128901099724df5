//! Division of two words by one, in binary digits.
ghost use Rattle.std.specs.Prelude.{◌≡◌, ◌+◌, ◌*◌, ◌^◌, ◌<◌, ◌≤◌};
ghost use Rattle.rp_two_words.specs.InnerDivision.{taken_together};
ghost use Rattle.rp_two_words.specs.Quotients.{IsExactQuotient};

/// A division in binary digits: the quotient so far, what is left of the digits that were taken, and the digits that
/// were not, from the top of their word.
#[derive(Clone, Copy)]
struct Division {
    quotient: u128,
    rest: u128,
    left: u128,
}

/// The half of a word's range: a word from here on has its first digit 1.
const HALF: u128 = 1 << 127;

/// The rest with the next digit, taken from the top of the word.
fn with_digit(division: Division) -> Division
    requires rest { division.rest < 2 ^ 127 }
    ensures exact { result.rest * 2 ^ 128 + result.left
        ≡ 2 * (division.rest * 2 ^ 128 + division.left) }
    ensures rest { result.rest ≤ 2 * division.rest + 1 }
    ensures quotient { result.quotient ≡ division.quotient }
    ensures left { result.left < 2 ^ 128 }
{
    if division.left >= HALF {
        Division {
            quotient: division.quotient,
            rest: 2 * division.rest + 1,
            left: 2 * (division.left - HALF),
        }
    } else {
        Division {
            quotient: division.quotient,
            rest: 2 * division.rest,
            left: 2 * division.left,
        }
    }
}

/// The division with one digit more.
fn one_more(division: Division, by: u128) -> Division
    requires rest { division.rest < by }
    requires small { by ≤ 2 ^ 127 }
    requires quotient { division.quotient < 2 ^ 127 }
    ensures exact { taken_together by result ≡ 2 * taken_together by division }
    ensures rest { result.rest < by }
    ensures quotient { result.quotient ≤ 2 * division.quotient + 1 }
    ensures left { result.left < 2 ^ 128 }
{
    let next = with_digit(division);
    if next.rest < by {
        Division {
            quotient: 2 * next.quotient,
            rest: next.rest,
            left: next.left,
        }
    } else {
        Division {
            quotient: 2 * next.quotient + 1,
            rest: next.rest - by,
            left: next.left,
        }
    }
}

/// The exact quotient of `high * 2^128 + low`, digit for digit.
pub(crate) fn long_quotient(high: u128, low: u128, by: u128) -> Option<u128>
    requires below { high < by }
    requires small { by ≤ 2 ^ 127 }
    ensures { IsExactQuotient (high * 2 ^ 128 + low) by result }
{
    let mut division = Division {
        quotient: 0,
        rest: high,
        left: low,
    };
    for digits in 0..128u32 {
        division = one_more(division, by);
    }
    if division.rest == 0 {
        Some(division.quotient)
    } else {
        None
    }
}
