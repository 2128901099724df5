//! Forged bounds on the homothetic level.
use crate::forged::Forged;
use crate::refused::{OF_MEAN, WHOLE};
use crate::verdicts::{Case, assert_rejected};
use rp_evidence::Reason;
use std::test::Fail;
use tests_inputs::tables::CONTRADICTION;

/// The lower bound on 4/5, over 2^40.
const LOW: u64 = 879_609_302_220;

/// The upper bound on 4/5, over 2^40.
const HIGH: u64 = 879_609_302_221;

/// In the order of the clauses: the upper bound, the walk, and the values with the lower bound.
const HOMOTHETIC: &[Case] = &[
    (
        CONTRADICTION,
        Forged::Homothetic(LOW, WHOLE + 1, &[0, 1, 0], &[1, 1]),
        Reason::Number,
        0,
    ),
    (
        CONTRADICTION,
        Forged::Homothetic(LOW, HIGH, &[0, 1, 0, 1, 0], &[1, 1]),
        Reason::Shape,
        1,
    ),
    (
        CONTRADICTION,
        Forged::Homothetic(LOW, HIGH, &[0], &[1, 1]),
        Reason::Shape,
        0,
    ),
    (
        CONTRADICTION,
        Forged::Homothetic(LOW, HIGH, &[0, 2, 0], &[1, 1]),
        Reason::Number,
        2,
    ),
    (
        CONTRADICTION,
        Forged::Homothetic(LOW, HIGH, &[0, 1], &[1, 1]),
        Reason::NotClosed,
        0,
    ),
    (
        CONTRADICTION,
        Forged::Homothetic(LOW, LOW, &[0, 1, 0], &[1, 1]),
        Reason::Bound,
        0,
    ),
    (
        CONTRADICTION,
        Forged::Homothetic(LOW, HIGH, &[0, 0], &[1, 1]),
        Reason::Bound,
        0,
    ),
    (
        CONTRADICTION,
        Forged::Homothetic(LOW, HIGH, &[0, 1, 0], &[1]),
        Reason::Shape,
        2,
    ),
    (
        CONTRADICTION,
        Forged::Homothetic(LOW, HIGH, &[0, 1, 0], &[1, 0]),
        Reason::Number,
        2,
    ),
    (
        CONTRADICTION,
        Forged::Homothetic(LOW, HIGH, &[0, 1, 0], &[OF_MEAN + 1, 1]),
        Reason::Number,
        1,
    ),
    (
        CONTRADICTION,
        Forged::Homothetic(HIGH, HIGH, &[0, 1, 0], &[1, 1]),
        Reason::Order,
        1,
    ),
    (
        CONTRADICTION,
        Forged::Homothetic(LOW, HIGH, &[0, 1, 0], &[1, 2]),
        Reason::Order,
        1,
    ),
    (
        CONTRADICTION,
        Forged::Homothetic(LOW, HIGH, &[0, 1, 0], &[2, 1]),
        Reason::Order,
        2,
    ),
];

#[test]
fn forged_homothetic_levels_are_rejected(rt: HostRuntime) -> Result<(), Fail> {
    assert_rejected(&rt, rt.alloc(), HOMOTHETIC)
}
