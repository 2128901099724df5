//! Decimal numbers, read from their text.
ghost use Rattle.std.specs.Prelude.{◌≡◌, ◌^◌, ◌≤◌, ◌==◌, ◌&&◌, if◌then◌else◌, IsTrue, min};
ghost use Rattle.std.specs.Prelude.{position};
ghost use Rattle.std.specs.Char.{is_ascii_digit};
ghost use Rattle.std.specs.List.{list_all};
ghost use Rattle.std.specs.Str.Parse.{digits_value_after};
ghost use Rattle.rp_num.specs.Decimal.{is_numeral, without_last_zeros, decimal_from, decimal_of};

/// The number `units / 10^places`, with no zero in the last place. More units than 10^18 are cut off
/// at 10^18; the places stay.
#[derive(Clone, Copy, Debug, PartialEq, Eq)]
pub struct Decimal {
    pub units: u64,
    pub places: u8,
}

/// Why a text is no decimal number.
#[derive(Clone, Copy, Debug, PartialEq, Eq)]
pub enum NumFault {
    /// The text is not digits, or digits, a point and digits.
    Bad,
    /// The number has more than 6 places, where zeros at the end do not count.
    Decimals,
}

/// From this number of units on, a number is kept as just so many.
const MOST_UNITS: u64 = 1_000_000_000_000_000_000;

/// The most places that a number may have.
const MOST_PLACES: usize = 6;

/// Reads a decimal number: digits, or digits on both sides of a point, and nothing else.
pub fn read_decimal(field: &[u8]) -> Result<Decimal, NumFault>
    ensures { result ≡ decimal_of field.now }
{
    match first_point(field) {
        Some(point) => read_parts(&field[..point], &field[point + 1..]),
        None => read_parts(field, b"0"),
    }
}

/// Reads what stands before a point and after it. A whole number reads as with the digit 0 after it.
fn read_parts(whole: &[u8], after: &[u8]) -> Result<Decimal, NumFault>
    ensures { result ≡ (if is_numeral whole.now && is_numeral after.now
        then decimal_from whole.now (without_last_zeros after.now)
        else Err NumFault.Bad) }
{
    if !is_numeral(whole) || !is_numeral(after) {
        return Err(NumFault::Bad);
    }
    let places = without_last_zeros(after);
    if places.len() > MOST_PLACES {
        return Err(NumFault::Decimals);
    }
    Ok(Decimal {
        units: extended(extended(0, whole), places),
        places: places.len() as u8,
    })
}

/// The place of the first point.
fn first_point(text: &[u8]) -> Option<usize>
    ensures { result ≡ position (λ b. b == 46) text.now }
{
    text.iter().position(|b| *b == b'.')
}

/// Whether the text is one or more digits.
fn is_numeral(text: &[u8]) -> bool
    ensures { result ≡ is_numeral text.now }
{
    !text.is_empty() && are_digits(text)
}

/// Whether the text has no other byte than digits.
fn are_digits(text: &[u8]) -> bool
    ensures { result ≡ list_all is_ascii_digit text.now }
{
    text.iter().all(|b| b.is_ascii_digit())
}

/// The digits up to the last that is not zero.
fn without_last_zeros(digits: &[u8]) -> &[u8]
    ensures { result.now ≡ without_last_zeros digits.now }
{
    let mut kept = digits.len();
    while kept > 0 && digits[kept - 1] == b'0' {
        kept -= 1;
    }
    &digits[..kept]
}

/// The units with these digits written after them, kept at 10^18 from there on.
fn extended(units: u64, digits: &[u8]) -> u64
    requires within { units ≤ 10 ^ 18 }
    requires digits { IsTrue (list_all is_ascii_digit digits.now) }
    ensures { result ≡ min (digits_value_after 10 units digits.now) (10 ^ 18) }
{
    let mut extended = units;
    for digit in digits {
        extended = (extended * 10 + u64::from(*digit - b'0')).min(MOST_UNITS);
    }
    extended
}
