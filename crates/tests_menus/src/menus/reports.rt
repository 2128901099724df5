//! The report on evidence of whatever origin that passes the check.
use crate::menus::cases::{Asked, assert_told};
use crate::menus::evidence::Evidence;
use std::test::Fail;

/// Three units, of which a has one and b two.
const MIXTURE: &str = "menu,choice,n\nab,a,1\nab,b,2\n";

/// Two units on each menu, of which no mixture makes more than one half.
const VIOLATION: &str = "menu,choice,n\nabc,a,1\nabc,b,1\nab,b,2\n";

/// What is withheld is reported with its step; the least sum stands all the same where the data are complete.
const WITHHELD: &[(&str, &str)] = &[
    (
        VIOLATION,
        "alternatives 3 menus 2 cells 3 orders 2 total 2\nmenus withheld 7\n",
    ),
    (
        MIXTURE,
        "alternatives 2 menus 1 cells 2 orders 2 total 3\nmenus withheld 7\n\
         sums least 1 at b in b\n",
    ),
];

const WITHHELD_OF_TEN: &[(&str, &str)] = &[(
    MIXTURE,
    "alternatives 2 menus 1 cells 2 orders 2 total 10\napportioned per 10\n\
     menus withheld 7\nsums least 3 at b in b\n",
)];

#[test]
fn reports_of_what_is_withheld(rt: HostRuntime) -> Result<(), Fail> {
    let alloc = rt.alloc();
    let evidence = Evidence::Withheld(7);
    assert_told(&rt, alloc, Asked::Reported(None, evidence), WITHHELD)?;
    assert_told(
        &rt,
        alloc,
        Asked::Reported(Some(10), evidence),
        WITHHELD_OF_TEN,
    )
}

/// Evidence over another denominator than the one that is found.
const OVER_TWO: Evidence = Evidence::Mixture(2, &[(&[0, 1], 2), (&[1, 0], 4)]);

const MIXED: &[(&str, &str)] = &[(
    MIXTURE,
    "alternatives 2 menus 1 cells 2 orders 2 total 3\nmenus mixture over 2\n\
     part a b weight 2\npart b a weight 4\nsums least 1 at b in b\n",
)];

/// Evidence of a violation over another denominator than the one that is found.
const HALVES: Evidence = Evidence::Violation(2, &[(&[1, 0, 2], 1), (&[1, 2, 0], 1)], &[0, 2, 0]);

const VIOLATED: &[(&str, &str)] = &[(
    VIOLATION,
    "alternatives 3 menus 2 cells 3 orders 2 total 2\nmenus violated share 1/2\n\
     weights 0 2 0 over 2\npart b a c weight 1\npart b c a weight 1\n",
)];

#[test]
fn reports_of_given_evidence(rt: HostRuntime) -> Result<(), Fail> {
    let alloc = rt.alloc();
    assert_told(&rt, alloc, Asked::Reported(None, OVER_TWO), MIXED)?;
    assert_told(&rt, alloc, Asked::Reported(None, HALVES), VIOLATED)
}
