//! Logarithms of integers, rounded.

/// How many places a logarithm has after the point, in base 2.
pub(crate) const PLACES: u32 = 56;

/// The logarithm 1.
pub(crate) const ONE: i64 = 1 << PLACES;

/// The greatest number whose logarithm is sought.
const TOP: u64 = 1 << 60;

/// A number from 1 up to below 2, of 63 places after the point, squared; and whether the square is 2 or more, and was
/// halved.
fn squared(number: u64) -> (u64, bool) {
    let square = u128::from(number) * u128::from(number);
    if square >> 127 == 1 {
        (narrowed(square >> 64), true)
    } else {
        (narrowed(square >> 63), false)
    }
}

/// A number of 64 bits.
fn narrowed(number: u128) -> u64 {
    u64::try_from(number).unwrap_or(u64::MAX)
}

/// Binary digits with one more digit behind them.
fn with_digit(digits: i64, is_one: bool) -> i64 {
    let doubled = digits.saturating_mul(2);
    if is_one {
        doubled.saturating_add(1)
    } else {
        doubled
    }
}

/// The binary logarithm of a positive number, digit by digit from squares.
pub(crate) fn logarithm(number: u64) -> i64 {
    let zeros = number.leading_zeros().min(63);
    let mut rest = number << zeros;
    let mut digits = i64::from(63u32.saturating_sub(zeros));
    for _ in 0..PLACES {
        let (square, is_halved) = squared(rest);
        rest = square;
        digits = with_digit(digits, is_halved);
    }
    digits
}

/// The greatest number from 1 to 2^60 whose logarithm is at most this one, or 1.
pub(crate) fn power(exponent: i64) -> u64 {
    let mut number: u64 = 0;
    for k in 0..61u32 {
        let more = number.saturating_add(TOP >> k);
        if more <= TOP && logarithm(more) <= exponent {
            number = more;
        }
    }
    number.max(1)
}
