//! Forged sets of kept observations.
use crate::forged::{Forged, Grouped};
use crate::refused::{FIRST, ONE_WAY, PAIR};
use crate::verdicts::{Case, assert_rejected};
use rp_evidence::Reason;
use rp_fit::GroupKind::{Cycle, Pairs};
use std::test::Fail;
use tests_inputs::tables::{CONTRADICTION, EQUAL, THREE};

/// A cycle of three.
const ROUND: &[Grouped] = &[(1, Cycle, &[0, 1, 2, 0])];

/// In the order of the clauses: the denominator, the set and its ranks, the groups, their weights, and the bound.
const KEPT: &[Case] = &[
    (
        CONTRADICTION,
        Forged::Kept(&[0], &[0], 0, PAIR, 1),
        Reason::Number,
        0,
    ),
    (
        CONTRADICTION,
        Forged::Kept(&[0], &[], 1, PAIR, 1),
        Reason::Shape,
        0,
    ),
    (
        CONTRADICTION,
        Forged::Kept(&[2], &[0], 1, PAIR, 1),
        Reason::Number,
        1,
    ),
    (
        THREE,
        Forged::Kept(&[0, 3], &[1, 0], 1, ROUND, 2),
        Reason::Number,
        2,
    ),
    (
        THREE,
        Forged::Kept(&[1, 0], &[0, 1], 1, ROUND, 2),
        Reason::Set,
        1,
    ),
    (
        THREE,
        Forged::Kept(&[0, 0], &[0, 0], 1, ROUND, 2),
        Reason::Set,
        1,
    ),
    (
        THREE,
        Forged::Kept(&[0, 1], &[0, 0], 1, ROUND, 2),
        Reason::Order,
        1,
    ),
    (
        THREE,
        Forged::Kept(&[0, 1, 2], &[2, 1, 0], 1, ROUND, 2),
        Reason::Order,
        3,
    ),
    (
        ONE_WAY,
        Forged::Kept(&[0, 1], &[0, 1], 1, PAIR, 1),
        Reason::Order,
        1,
    ),
    (
        ONE_WAY,
        Forged::Kept(&[0, 1], &[0, 0], 1, PAIR, 1),
        Reason::Order,
        2,
    ),
    (
        CONTRADICTION,
        Forged::Kept(&[0], &[0], 1, &[(0, Pairs, &[0, 1])], 1),
        Reason::Number,
        1,
    ),
    (
        CONTRADICTION,
        Forged::Kept(&[0], &[0], 1, &[(1, Pairs, &[0, 1]), (0, Pairs, &[0])], 1),
        Reason::Number,
        2,
    ),
    (
        CONTRADICTION,
        Forged::Kept(&[0], &[0], 1, &[(1, Pairs, &[0, 1, 2])], 1),
        Reason::Set,
        1,
    ),
    (
        CONTRADICTION,
        Forged::Kept(&[0], &[0], 1, &[(1, Pairs, &[0, 1, 0])], 1),
        Reason::Set,
        1,
    ),
    (
        CONTRADICTION,
        Forged::Kept(
            &[0],
            &[0],
            1,
            &[(1, Pairs, &[0, 1]), (1, Cycle, &[0, 1])],
            2,
        ),
        Reason::Set,
        2,
    ),
    (EQUAL, Forged::Kept(&[0], &[0], 1, PAIR, 1), Reason::Set, 1),
    (
        EQUAL,
        Forged::Kept(&[0], &[0], 1, &[(1, Cycle, &[0, 1, 0])], 1),
        Reason::Set,
        1,
    ),
    (THREE, Forged::Kept(&[0], &[0], 1, PAIR, 1), Reason::Set, 1),
    (
        THREE,
        Forged::Kept(&[0], &[0], 1, &[(1, Cycle, &[0, 2, 1, 0])], 2),
        Reason::Set,
        1,
    ),
    (
        THREE,
        Forged::Kept(&[0], &[0], 1, &[(1, Cycle, &[0, 1, 2, 0, 1, 2, 0])], 2),
        Reason::Set,
        1,
    ),
    (
        CONTRADICTION,
        Forged::Kept(&[0], &[0], 1, FIRST, 1),
        Reason::Dual,
        2,
    ),
    (
        CONTRADICTION,
        Forged::Kept(&[0], &[0], 2, PAIR, 0),
        Reason::Dual,
        1,
    ),
    (
        CONTRADICTION,
        Forged::Kept(&[0], &[0], 1, PAIR, 0),
        Reason::Bound,
        0,
    ),
    (
        CONTRADICTION,
        Forged::Kept(&[0], &[0], 1, PAIR, 2),
        Reason::Bound,
        0,
    ),
    (
        THREE,
        Forged::Kept(&[0, 1], &[1, 0], 1, ROUND, 3),
        Reason::Bound,
        0,
    ),
    (
        THREE,
        Forged::Kept(
            &[0, 1],
            &[1, 0],
            2,
            &[(2, Cycle, &[0, 1, 2, 0]), (1, Pairs, &[0])],
            3,
        ),
        Reason::Bound,
        0,
    ),
];

#[test]
fn forged_sets_are_rejected(rt: HostRuntime) -> Result<(), Fail> {
    assert_rejected(&rt, rt.alloc(), KEPT)
}
