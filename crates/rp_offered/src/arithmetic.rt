//! Products that have room.
ghost use Rattle.std.specs.Prelude.{◌≡◌, ◌+◌, ◌*◌, ◌^◌, ◌≤◌};

/// A product.
pub(crate) fn product(a: u64, b: u64) -> u128
    requires small { a ≤ 2 ^ 45 }
    requires also_small { b ≤ 2 ^ 45 }
    ensures exact { result ≡ a * b }
    ensures fits { result ≤ 2 ^ 90 }
    ensures positive { 1 ≤ a → 1 ≤ b → 1 ≤ result }
{
    u128::from(a) * u128::from(b)
}

/// What `x` and `y` cost at the prices `b` and `a`.
pub(crate) fn cost(x: u64, b: u64, y: u64, a: u64) -> u128
    requires first { x ≤ 2 ^ 45 }
    requires first_price { b ≤ 2 ^ 45 }
    requires second { y ≤ 2 ^ 45 }
    requires second_price { a ≤ 2 ^ 45 }
    ensures exact { result ≡ x * b + y * a }
    ensures fits { result ≤ 2 ^ 91 }
{
    product(x, b) + product(y, a)
}

/// A number times that power of ten.
pub(crate) fn scaled(n: u128, places: u8) -> u128
    requires small { n ≤ 2 ^ 91 }
    requires few { places ≤ 6 }
    ensures exact { result ≡ n * 10 ^ places }
    ensures fits { result ≤ 2 ^ 111 }
    ensures small_fits { n ≤ 2 ^ 48 → result ≤ 2 ^ 68 }
    ensures positive { 1 ≤ n → 1 ≤ result }
{
    n * u128::from(ten_to(places))
}

/// The power of ten with that exponent.
pub(crate) fn ten_to(places: u8) -> u64
    requires { places ≤ 6 }
    ensures power { result ≡ 10 ^ places }
    ensures positive { 1 ≤ result }
    ensures small { result ≤ 1000000 }
{
    10u64.pow(u32::from(places))
}
