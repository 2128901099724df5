//! Numbers among the words.
ghost use Rattle.std.specs.Prelude.{◌≡◌, ◌≤◌, IfSome};
ghost use Rattle.rp_front.specs.Numbers.{number_in, number_with};

/// The number of a text of digits, where it is at most so many.
pub fn number_in(most: u64, text: &[u8]) -> Option<u64>
    ensures exact { result ≡ number_in most text.now }
    ensures within { IfSome result (λ n. n ≤ most) }
{
    if text.len() == 0 {
        return None;
    }
    let mut number = 0u64;
    for byte in text {
        number = number_with(most, number, *byte)?;
    }
    Some(number)
}

/// A number with one digit more, where it is at most so many.
fn number_with(most: u64, number: u64, byte: u8) -> Option<u64>
    requires { number ≤ most }
    ensures exact { result ≡ number_with most number byte }
    ensures within { IfSome result (λ n. n ≤ most) }
{
    if !byte.is_ascii_digit() {
        return None;
    }
    let longer = 10 * u128::from(number) + u128::from(byte - b'0');
    if longer > u128::from(most) {
        return None;
    }
    Some(longer as u64)
}
