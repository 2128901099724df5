//! Exact division by one number.
ghost use Rattle.std.specs.Prelude.{◌≡◌, ◌≤◌, ◌^◌, pos, ◌*ℤ◌, IfSome, true};

/// A number that divides: an odd one, of which the inverse modulo 2^128 is known, times a power of two. An exact
/// quotient is a product with that inverse (Jebelean 1993, "An algorithm for exact division").
#[derive(Clone, Copy)]
pub(crate) struct Divisor {
    pub(crate) number: u128,
    zeros: u32,
    inverse: i128,
    ghost positive: { 1 ≤ number },
    ghost small: { number ≤ 2 ^ 127 },
}

/// The inverse of an odd number modulo 2^128. It is its own inverse in three digits, and each step (Newton's) doubles
/// how many are right.
fn inverse_of(odd: i128) -> i128 {
    let mut inverse = odd;
    for _ in 0..6u32 {
        inverse = inverse.wrapping_mul(2i128.wrapping_sub(odd.wrapping_mul(inverse)));
    }
    inverse
}

/// The product of two words.
fn word_product(a: i64, b: i64) -> i128
    ensures { result ≡ a *ℤ b }
{
    i128::from(a) * i128::from(b)
}

/// The product of two numbers of one word; none of longer ones.
pub(crate) fn product_of_words(a: i128, b: i128) -> Option<i128>
    ensures { IfSome result (λ product. product ≡ a *ℤ b) }
{
    let a = i64::try_from(a).ok()?;
    let b = i64::try_from(b).ok()?;
    Some(word_product(a, b))
}

impl Divisor {
    /// This number.
    pub(crate) fn new(number: u128) -> Divisor
        requires positive { 1 ≤ number }
        requires small { number ≤ 2 ^ 127 }
        ensures { result.number ≡ number }
    {
        let zeros = number.trailing_zeros();
        let odd = number.wrapping_shr(zeros);
        Divisor {
            number,
            zeros,
            inverse: inverse_of(i128::try_from(odd).unwrap_or(1)),
        }
    }

    /// The quotient of a number that this one divides, which is not 0.
    fn quotient(self, n: i128) -> i128 {
        n.wrapping_shr(self.zeros).wrapping_mul(self.inverse)
    }

    /// Whether this number, times a quotient of one word, is another.
    fn divides_into(self, n: i128, quotient: i128) -> bool
        ensures { result ≡ true → quotient *ℤ pos self.number ≡ n }
    {
        match i128::try_from(self.number) {
            Ok(number) => match product_of_words(quotient, number) {
                Some(product) => product == n,
                None => false,
            },
            Err(_) => false,
        }
    }

    /// The quotient of a number where it and this one are of one word, and the division leaves no rest.
    pub(crate) fn word_quotient(self, n: i128) -> Option<i128>
        ensures { IfSome result (λ quotient. quotient *ℤ pos self.number ≡ n) }
    {
        let found = self.quotient(n);
        if self.divides_into(n, found) {
            Some(found)
        } else {
            None
        }
    }
}
