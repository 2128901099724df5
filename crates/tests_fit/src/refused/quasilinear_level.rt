//! Forged quasilinear levels.
use crate::forged::Forged;
use crate::refused::OF_LEVEL;
use crate::verdicts::{Case, assert_rejected};
use rp_evidence::Reason;
use std::test::Fail;
use tests_inputs::tables::CONTRADICTION;

/// In the order of the clauses: the denominator, the walk with its level, and the values.
const QUASILINEAR: &[Case] = &[
    (
        CONTRADICTION,
        Forged::Quasilinear(0, 0, &[0, 1, 0], &[0, 0]),
        Reason::Number,
        0,
    ),
    (
        CONTRADICTION,
        Forged::Quasilinear(4, 5, &[0, 1, 0, 1, 0], &[0, 0]),
        Reason::Shape,
        1,
    ),
    (
        CONTRADICTION,
        Forged::Quasilinear(4, 5, &[], &[0, 0]),
        Reason::Shape,
        0,
    ),
    (
        CONTRADICTION,
        Forged::Quasilinear(4, 5, &[0, 2, 0], &[0, 0]),
        Reason::Number,
        2,
    ),
    (
        CONTRADICTION,
        Forged::Quasilinear(4, 5, &[0, 1], &[0, 0]),
        Reason::NotClosed,
        0,
    ),
    (
        CONTRADICTION,
        Forged::Quasilinear(3, 5, &[0, 1, 0], &[0, 0]),
        Reason::Bound,
        0,
    ),
    (
        CONTRADICTION,
        Forged::Quasilinear(4, 5, &[0, 1, 0], &[0]),
        Reason::Shape,
        2,
    ),
    (
        CONTRADICTION,
        Forged::Quasilinear(4, 5, &[0, 1, 0], &[0, OF_LEVEL + 1]),
        Reason::Number,
        2,
    ),
    (
        CONTRADICTION,
        Forged::Quasilinear(4, 5, &[0, 1, 0], &[-OF_LEVEL - 1, 0]),
        Reason::Number,
        1,
    ),
    (
        CONTRADICTION,
        Forged::Quasilinear(4, 5, &[0, 1, 0], &[0, 1]),
        Reason::Order,
        1,
    ),
    (
        CONTRADICTION,
        Forged::Quasilinear(4, 5, &[0, 1, 0], &[1, 0]),
        Reason::Order,
        2,
    ),
    (
        CONTRADICTION,
        Forged::Quasilinear(1, 1, &[0, 0], &[0, 0]),
        Reason::Order,
        1,
    ),
];

#[test]
fn forged_quasilinear_levels_are_rejected(rt: HostRuntime) -> Result<(), Fail> {
    assert_rejected(&rt, rt.alloc(), QUASILINEAR)
}
