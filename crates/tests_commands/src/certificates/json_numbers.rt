//! Numbers and fractions of certificates.
use rp_num::{Frac, read_frac, read_i128, read_u128};
use std::test::Fail;

const MOST: u128 = 340282366920938463463374607431768211455;

/// A number is read from its plain digits alone, up to 2^128 - 1.
#[test]
fn whole_numbers_of_texts(rt: HostRuntime) -> Result<(), Fail> {
    let alloc = rt.alloc();
    for (text, number) in [
        ("0", Some(0u128)),
        ("7", Some(7)),
        ("340282366920938463463374607431768211455", Some(MOST)),
        ("340282366920938463463374607431768211456", None),
        ("", None),
        ("01", None),
        ("00", None),
        ("+1", None),
        ("-1", None),
        ("-0", None),
        (" 1", None),
        ("1 ", None),
        ("1.0", None),
        ("1e0", None),
    ] {
        assert!(rt; read_u128(alloc, text)? == number);
    }
    Ok(())
}

/// A signed number is read from 1 - 2^127 to 2^127 - 1, and never from `-0`.
#[test]
fn signed_numbers_of_texts(rt: HostRuntime) -> Result<(), Fail> {
    let alloc = rt.alloc();
    for (text, number) in [
        ("0", Some(0i128)),
        ("-4", Some(-4)),
        ("170141183460469231731687303715884105727", Some(i128::MAX)),
        ("170141183460469231731687303715884105728", None),
        ("-170141183460469231731687303715884105727", Some(-i128::MAX)),
        ("-170141183460469231731687303715884105728", None),
        ("-0", None),
        ("+1", None),
        ("-01", None),
        ("--1", None),
        ("-", None),
        ("", None),
    ] {
        assert!(rt; read_i128(alloc, text)? == number);
    }
    Ok(())
}

/// A fraction is read in lowest terms, with no denominator 1 and both parts up to 2^127 - 1.
#[test]
fn fractions_of_texts(rt: HostRuntime) -> Result<(), Fail> {
    let alloc = rt.alloc();
    for (text, num, den) in [
        ("0", 0u128, 1u128),
        ("4/5", 4, 5),
        ("3", 3, 1),
        (
            "1/170141183460469231731687303715884105727",
            1,
            i128::MAX as u128,
        ),
        (
            "170141183460469231731687303715884105727",
            i128::MAX as u128,
            1,
        ),
    ] {
        assert!(rt; read_frac(alloc, text)? == Some(Frac::new(num, den)));
    }
    for text in [
        "2/4",
        "0/2",
        "3/1",
        "1/0",
        "0/1",
        "0/0",
        "01",
        "1/02",
        "1/",
        "/2",
        "/",
        "1/2/3",
        "-1/2",
        "1/-2",
        "170141183460469231731687303715884105728",
        "1/170141183460469231731687303715884105728",
        "",
    ] {
        assert!(rt; read_frac(alloc, text)? == None);
    }
    Ok(())
}
