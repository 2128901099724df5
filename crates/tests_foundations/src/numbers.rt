//! Tests of exact numbers: products and orders of fractions and divisors, near the width and on both sides of a word,
//! decimals, and printing.
use rp_num::{Frac, NoMemory, NumFault, gcd, print_frac, print_u128, read_decimal};
use std::alloc::Global;
use std::cmp::Ordering;
use std::process::Abort;
use std::test::Fail;

/// The greatest numerator and denominator.
const WIDTH: u128 = (1 << 127) - 1;

/// The greatest number of one word.
const WORD: u128 = (1 << 64) - 1;

/// The last of Fibonacci's numbers below 2^127, which is number 184, and the one before it.
const FIBONACCI: u128 = 127127879743834334146972278486287885163;

const FIBONACCI_BEFORE: u128 = 78569350599398894027251472817058687522;

/// A call on exact numbers, and what it gives.
enum Exact {
    /// Two fractions, and their product's numerator and denominator, none where it is too wide.
    Product(u128, u128, u128, u128, Option<(u128, u128)>),
    /// How the first of two fractions stands to the second.
    Order(u128, u128, u128, u128, Ordering),
    /// Two numbers, and their greatest common divisor, in either order.
    Divisor(u128, u128, u128),
    /// A decimal, and its units and places, or its fault.
    Decimal(&'static str, Result<(u64, u8), NumFault>),
}

/// The fraction of two numbers within the width, the second above 0.
fn fraction(num: u128, den: u128) -> Frac {
    Frac::new(num.min(WIDTH), den.clamp(1, WIDTH))
}

/// The numerator and the denominator of a/b times c/d, none where the product is too wide.
fn product(a: u128, b: u128, c: u128, d: u128) -> Option<(u128, u128)> {
    let product = fraction(a, b).mul(fraction(c, d)).ok()?;
    Some((product.num(), product.den()))
}

/// How a/b stands to c/d.
fn order(a: u128, b: u128, c: u128, d: u128) -> Ordering {
    fraction(a, b).cmp(fraction(c, d))
}

/// The greatest common divisor.
fn divisor(a: u128, b: u128) -> u128 {
    gcd(a, b)
}

/// The units and the places of a decimal, or its fault.
fn decimal(field: &str) -> Result<(u64, u8), NumFault> {
    let number = read_decimal(field.as_bytes())?;
    Ok((number.units, number.places))
}

/// Whether a call gives what is wanted.
fn is_given(exact: &Exact) -> bool {
    match exact {
        Exact::Product(a, b, c, d, want) => product(*a, *b, *c, *d) == *want,
        Exact::Order(a, b, c, d, want) => order(*a, *b, *c, *d) == *want,
        Exact::Divisor(a, b, want) => divisor(*a, *b) == *want && divisor(*b, *a) == *want,
        Exact::Decimal(field, want) => decimal(field) == *want,
    }
}

/// Asserts what each call gives.
fn assert_given(rt: &impl Abort, cases: &[Exact]) {
    for (row, exact) in cases.iter().enumerate() {
        assert!(rt; is_given(exact), "row {row}");
    }
}

const PRODUCTS: [Exact; 18] = [
    Exact::Product(WIDTH, 1, 1, 1, Some((WIDTH, 1))),
    Exact::Product(WIDTH, 1, 2, 1, None),
    Exact::Product(WIDTH, 1, 1, 2, Some((WIDTH, 2))),
    Exact::Product(WIDTH, 3, 3, WIDTH, Some((1, 1))),
    Exact::Product(1 << 126, 1, 1, 1 << 126, Some((1, 1))),
    Exact::Product(1 << 64, 1, 1 << 63, 1, None),
    Exact::Product(6, 4, 10, 15, Some((1, 1))),
    Exact::Product(0, 5, 7, 9, Some((0, 1))),
    // with ones, and with small sides
    Exact::Product(WIDTH, WIDTH - 1, 1, 1, Some((WIDTH, WIDTH - 1))),
    Exact::Product(1, 1, 3, WIDTH, Some((3, WIDTH))),
    Exact::Product(1 << 63, 1, WORD, 1, Some(((1 << 127) - (1 << 63), 1))),
    Exact::Product(1, 1 << 63, 1, 1 << 64, None),
    Exact::Product(1 << 126, 3, 3, 1 << 126, Some((1, 1))),
    Exact::Product(1 << 126, 3, 9, 1 << 50, Some((3 << 76, 1))),
    Exact::Product(WIDTH, 1 << 60, 1 << 61, WIDTH, Some((2, 1))),
    Exact::Product(
        FIBONACCI,
        FIBONACCI_BEFORE,
        FIBONACCI_BEFORE,
        2,
        Some((FIBONACCI, 2)),
    ),
    Exact::Product(
        FIBONACCI,
        FIBONACCI_BEFORE,
        2,
        1,
        Some((FIBONACCI, FIBONACCI_BEFORE / 2)),
    ),
    Exact::Product(FIBONACCI, FIBONACCI_BEFORE, 4, 1, None),
];

#[test]
fn products_at_the_width(rt: HostRuntime) {
    assert_given(&rt, &PRODUCTS);
}

const ORDERS: [Exact; 14] = [
    Exact::Order(WIDTH, WIDTH - 1, WIDTH - 1, WIDTH - 2, Ordering::Less),
    Exact::Order(WIDTH - 1, WIDTH, WIDTH - 2, WIDTH - 1, Ordering::Greater),
    Exact::Order(2, 4, 1, 2, Ordering::Equal),
    Exact::Order(0, 1, 1, WIDTH, Ordering::Less),
    // fractions that agree in their high words
    Exact::Order(
        (1 << 126) + 1,
        1 << 126,
        (1 << 126) + 2,
        (1 << 126) + 1,
        Ordering::Greater,
    ),
    Exact::Order(
        1 << 126,
        (1 << 126) + 1,
        (1 << 126) + 1,
        (1 << 126) + 2,
        Ordering::Less,
    ),
    Exact::Order(
        (1 << 126) + 1,
        1 << 126,
        (1 << 126) + 1,
        1 << 126,
        Ordering::Equal,
    ),
    Exact::Order(WIDTH, WIDTH, 1, 1, Ordering::Equal),
    Exact::Order(WIDTH, 1, WIDTH - 1, 1, Ordering::Greater),
    Exact::Order(1, WIDTH, 1, WIDTH - 1, Ordering::Less),
    // (here the cross products are 2^128 and 1, and 2^128 + 2^64 and 2^128)
    Exact::Order(1 << 64, 1, 1, 1 << 64, Ordering::Greater),
    Exact::Order((1 << 64) + 1, 1, 1 << 64, 1, Ordering::Greater),
    Exact::Order((1 << 64) + 1, 1 << 64, 1 << 64, WORD, Ordering::Less),
    Exact::Order(
        FIBONACCI,
        FIBONACCI_BEFORE,
        FIBONACCI_BEFORE,
        48558529144435440119720805669229197641,
        Ordering::Less,
    ),
];

#[test]
fn fractions_that_differ_in_the_last_unit(rt: HostRuntime) {
    assert_given(&rt, &ORDERS);
}

const DIVISORS: [Exact; 21] = [
    Exact::Divisor(0, 0, 0),
    Exact::Divisor(0, 5, 5),
    Exact::Divisor(12, 18, 6),
    Exact::Divisor(u128::MAX, u128::MAX - 1, 1),
    // on both sides of a word
    Exact::Divisor(1, u128::MAX, 1),
    Exact::Divisor(WORD, WORD, WORD),
    Exact::Divisor(WORD, 1 << 64, 1),
    Exact::Divisor(1 << 64, 1 << 65, 1 << 64),
    Exact::Divisor(3 * WORD, 3 << 64, 3),
    Exact::Divisor(WORD * 6, WORD * 10, WORD * 2),
    Exact::Divisor(WORD * WORD, WORD, WORD),
    Exact::Divisor(WORD * WORD, (WORD - 1) * WORD, WORD),
    Exact::Divisor(1 << 127, 3 << 60, 1 << 60),
    Exact::Divisor(u128::MAX, u128::MAX, u128::MAX),
    Exact::Divisor(u128::MAX, 1 << 127, 1),
    Exact::Divisor(u128::MAX, WORD, WORD),
    // the most steps (of two of Fibonacci's numbers it is the one whose place is the places' divisor)
    Exact::Divisor(FIBONACCI, FIBONACCI_BEFORE, 1),
    Exact::Divisor(FIBONACCI, 7540113804746346429, 7540113804746346429),
    Exact::Divisor(
        18547707689471986212190138521399707760,
        5358359254990966640871840,
        1548008755920,
    ),
    Exact::Divisor(WIDTH, WIDTH, WIDTH),
    Exact::Divisor(WIDTH, WIDTH - 1, 1),
];

#[test]
fn divisors_of_every_width(rt: HostRuntime) {
    assert_given(&rt, &DIVISORS);
}

const DECIMALS: [Exact; 17] = [
    Exact::Decimal("0", Ok((0, 0))),
    Exact::Decimal("00012.500", Ok((125, 1))),
    Exact::Decimal("1.5000000", Ok((15, 1))),
    Exact::Decimal("0.000001", Ok((1, 6))),
    Exact::Decimal("9999999", Ok((9_999_999, 0))),
    Exact::Decimal(
        "1000000000000000000000.5",
        Ok((1_000_000_000_000_000_000, 1)),
    ),
    Exact::Decimal("", Err(NumFault::Bad)),
    Exact::Decimal("1.", Err(NumFault::Bad)),
    Exact::Decimal(".5", Err(NumFault::Bad)),
    Exact::Decimal("+1", Err(NumFault::Bad)),
    Exact::Decimal("-1", Err(NumFault::Bad)),
    Exact::Decimal("1e3", Err(NumFault::Bad)),
    Exact::Decimal("1,5", Err(NumFault::Bad)),
    Exact::Decimal(" 1", Err(NumFault::Bad)),
    Exact::Decimal("1.2.3", Err(NumFault::Bad)),
    Exact::Decimal("0.0000001", Err(NumFault::Decimals)),
    Exact::Decimal("1.1234567", Err(NumFault::Decimals)),
];

#[test]
fn decimals_are_read_exactly(rt: HostRuntime) {
    assert_given(&rt, &DECIMALS);
}

/// A number that is printed.
enum Number {
    Natural(u128),
    Fraction(u128, u128),
}

/// Prints a number.
fn push_number(alloc: Global, out: &mut Vec<u8>, number: &Number) -> Result<(), NoMemory> {
    match number {
        Number::Natural(n) => print_u128(alloc, out, *n),
        Number::Fraction(num, den) => print_frac(alloc, out, fraction(*num, *den)),
    }
}

/// Prints each number, and a space after it.
fn printed(alloc: Global, numbers: &[Number]) -> Result<Vec<u8>, Fail> {
    let mut out = Vec::new(alloc);
    for number in numbers {
        push_number(alloc, &mut out, number)?;
        out.push(b' ')?;
    }
    Ok(out)
}

const NUMBERS: [Number; 4] = [
    Number::Natural(0),
    Number::Natural(u128::MAX),
    Number::Fraction(6, 3),
    Number::Fraction(6, 4),
];

#[test]
fn numbers_are_printed_in_plain_decimal(rt: HostRuntime) -> Result<(), Fail> {
    let text = "0 340282366920938463463374607431768211455 2 3/2 ";
    assert!(rt; printed(rt.alloc(), &NUMBERS)?.as_slice() == text.as_bytes());
    Ok(())
}
