//! Evidence in which one clause alone is broken, and whether it is accepted.
use crate::menus::cases::assert_accepts;
use crate::menus::evidence::Evidence::{Mixture, Violation, Withheld};
use crate::menus::evidence::{Evidence, Parts};
use std::test::Fail;

/// The greatest number that a linear program may give, 2^63 - 1.
const WIDTH: u64 = 9_223_372_036_854_775_807;

/// Two units on each menu. The orders b a c and b c a alone pick a cell from both, the second and the third.
const VIOLATION: &str = "menu,choice,n\nabc,a,1\nabc,b,1\nab,b,2\n";

/// Three units, of which a has one and b two.
const MIXTURE: &str = "menu,choice,n\nab,a,1\nab,b,2\n";

/// One unit on each menu; the order a b c alone picks a cell from both.
const CHAIN: &str = "menu,choice,n\nab,a,1\nbc,b,1\n";

/// A partial mixture of the violation.
const ONE: Parts = &[(&[1, 0, 2], 1)];

/// Another.
const BOTH: Parts = &[(&[1, 0, 2], 1), (&[1, 2, 0], 1)];

const VIOLATIONS: &[(Evidence, bool)] = &[
    (Violation(1, ONE, &[0, 1, 0]), true),
    (Violation(2, BOTH, &[0, 2, 0]), true),
    // numbers
    (Violation(0, ONE, &[0, 1, 0]), false),
    (Violation(WIDTH + 1, ONE, &[0, 1, 0]), false),
    (Violation(1, &[(&[1, 0, 2], WIDTH + 1)], &[0, 1, 0]), false),
    (Violation(1, ONE, &[0, 1, WIDTH + 1]), false),
    // lists that are no orders of all letters
    (Violation(1, &[(&[1, 0], 1)], &[0, 1, 0]), false),
    (Violation(1, &[(&[1, 0, 2, 2], 1)], &[0, 1, 0]), false),
    (Violation(1, &[(&[1, 0, 3], 1)], &[0, 1, 0]), false),
    (Violation(1, &[(&[1, 1, 0], 1)], &[0, 1, 0]), false),
    // an order of no weight
    (
        Violation(1, &[(&[1, 0, 2], 1), (&[1, 2, 0], 0)], &[0, 1, 0]),
        false,
    ),
    // an order that picks no cell of the second menu
    (
        Violation(2, &[(&[0, 1, 2], 1), (&[1, 0, 2], 2)], &[1, 2, 0]),
        false,
    ),
    // orders that do not come one after the other
    (
        Violation(2, &[(&[1, 2, 0], 1), (&[1, 0, 2], 1)], &[0, 2, 0]),
        false,
    ),
    (
        Violation(2, &[(&[1, 0, 2], 1), (&[1, 0, 2], 1)], &[0, 2, 0]),
        false,
    ),
    // a weight for each cell
    (Violation(1, ONE, &[0, 1]), false),
    (Violation(1, ONE, &[0, 1, 0, 0]), false),
    // more than the units of the second cell
    (Violation(2, &[(&[1, 0, 2], 3)], &[1, 2, 0]), false),
    // an order whose cells weigh less than the denominator
    (Violation(1, ONE, &[1, 0, 0]), false),
    (Violation(2, BOTH, &[1, 0, 0]), false),
    // units that weigh more than the parts have
    (Violation(1, ONE, &[1, 1, 0]), false),
    (Violation(1, ONE, &[0, 1, 1]), false),
    // what is withheld claims nothing
    (Withheld(7), true),
];

#[test]
fn forged_violations(rt: HostRuntime) -> Result<(), Fail> {
    assert_accepts(&rt, rt.alloc(), VIOLATION, VIOLATIONS)
}

/// The mixture.
const PARTS: Parts = &[(&[0, 1], 1), (&[1, 0], 2)];

const MIXTURES: &[(Evidence, bool)] = &[
    (Mixture(1, PARTS), true),
    (Mixture(2, &[(&[0, 1], 2), (&[1, 0], 4)]), true),
    (Mixture(0, &[]), false),
    (Mixture(WIDTH + 1, PARTS), false),
    (Mixture(1, &[(&[0, 1], 1), (&[1, 0], WIDTH + 1)]), false),
    (Mixture(1, &[(&[0], 1), (&[1, 0], 2)]), false),
    (Mixture(1, &[(&[1, 0], 2), (&[0, 1], 1)]), false),
    (Mixture(1, &[(&[0, 1], 1), (&[1, 0], 1)]), false),
    (Mixture(1, &[(&[0, 1], 2), (&[1, 0], 2)]), false),
    // told as a violation, where the parts have the whole total
    (Violation(1, PARTS, &[1, 1]), false),
];

const CHAINS: &[(Evidence, bool)] = &[
    (Mixture(1, &[(&[0, 1, 2], 1)]), true),
    (Mixture(1, &[(&[0, 1, 2], 1), (&[0, 2, 1], 0)]), false),
    // each picks a cell of one menu alone, and each cell has its unit
    (Mixture(1, &[(&[0, 2, 1], 1), (&[1, 0, 2], 1)]), false),
];

#[test]
fn forged_mixtures(rt: HostRuntime) -> Result<(), Fail> {
    assert_accepts(&rt, rt.alloc(), MIXTURE, MIXTURES)
}

#[test]
fn forged_mixtures_of_a_chain(rt: HostRuntime) -> Result<(), Fail> {
    assert_accepts(&rt, rt.alloc(), CHAIN, CHAINS)
}
