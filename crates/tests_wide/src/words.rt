//! Tests of numbers of two words, at both ends of their words.
use rp_two_words::TwoWords;
use std::cmp::Ordering;
use std::process::Abort;
use std::test::Fail;

/// The greatest entry, 2^127 - 1.
const MOST: u128 = (1 << 127) - 1;

/// Two factors, and the words of their product.
const PRODUCTS: [(u128, u128, u128, u128); 10] = [
    (0, MOST, 0, 0),
    (1, MOST, 0, MOST),
    (1 << 63, 1 << 63, 0, 1 << 126),
    (1 << 63, 1 << 64, 0, 1 << 127),
    (1 << 64, 1 << 64, 1, 0),
    (1 << 64, MOST, (1 << 63) - 1, ((1 << 64) - 1) << 64),
    (1 << 63, MOST, (1 << 62) - 1, ((1 << 65) - 1) << 63),
    (MOST, 2, 0, u128::MAX - 1),
    // (2^127 - 1)^2 is 2^254 - 2^128 + 1
    (MOST, MOST, (1 << 126) - 1, 1),
    (u128::MAX, u128::MAX, u128::MAX - 1, 1),
];

#[test]
fn products(rt: HostRuntime) -> Result<(), Fail> {
    for (a, b, high, low) in PRODUCTS {
        assert!(rt;
            TwoWords::product(a, b) == TwoWords { high, low },
            "{a} times {b}"
        );
    }
    Ok(())
}

/// A dividend, a divisor, and the exact quotient of one word, if there is one.
const QUOTIENTS: [(u128, u128, u128, Option<u128>); 12] = [
    (0, 0, 1, Some(0)),
    (0, 0, MOST, Some(0)),
    (0, 1, 2, None),
    (0, MOST, MOST, Some(1)),
    (1, 0, 1, None),
    (1, 0, 1 << 64, Some(1 << 64)),
    (1, 1, 1 << 64, None),
    (1, 0, 1 << 63, Some(1 << 65)),
    ((1 << 126) - 1, 1, MOST, Some(MOST)),
    ((1 << 126) - 1, 2, MOST, None),
    ((1 << 126) - 1, 0, MOST, None),
    // 2^255 - 2^127 is (2^128 - 1) times 2^127
    (MOST, 1 << 127, 1 << 127, Some(u128::MAX)),
];

#[test]
fn exact_quotients(rt: HostRuntime) -> Result<(), Fail> {
    for (high, low, by, quotient) in QUOTIENTS {
        let number = TwoWords { high, low };
        assert!(rt; 1 <= by && by <= 1 << 127);
        assert!(rt;
            number.exact_quotient(by) == quotient,
            "{high} {low} by {by}"
        );
    }
    Ok(())
}

#[test]
fn sums_and_differences(rt: HostRuntime) -> Result<(), Fail> {
    let most = TwoWords::product(MOST, MOST);
    let sum = TwoWords {
        high: (1 << 127) - 2,
        low: 2,
    };
    assert!(rt; most.high < 1 << 127);
    assert!(rt; most.plus(most) == sum);
    assert!(rt; most.cmp(sum) == Ordering::Less && sum.cmp(sum) == Ordering::Equal);
    let one = TwoWords::product(1, 1);
    let word = TwoWords { high: 1, low: 0 };
    let last = TwoWords {
        high: 0,
        low: u128::MAX,
    };
    assert!(rt; last.plus(one) == word);
    assert!(rt; word.cmp(last) == Ordering::Greater);
    Ok(())
}
