//! Wrong numbers of violations.
use crate::forged::Forged;
use crate::refused::{ONE_BUNDLE, ONE_WAY};
use crate::verdicts::{Case, assert_rejected};
use rp_evidence::Reason;
use std::test::Fail;
use tests_inputs::tables::{ALONE, EQUAL, THREE};

/// Wrong numbers of pairs. Some take a weak step for a strict one, equal bundles for different ones, or a walk for a
/// step.
const COUNTS: &[Case] = &[
    (
        ONE_WAY,
        Forged::Violations([2, 1, 2, 2, 2]),
        Reason::Number,
        1,
    ),
    (
        ONE_WAY,
        Forged::Violations([1, 2, 2, 2, 2]),
        Reason::Number,
        2,
    ),
    (
        ONE_WAY,
        Forged::Violations([1, 1, 1, 2, 2]),
        Reason::Number,
        3,
    ),
    (
        ONE_WAY,
        Forged::Violations([1, 1, 2, 1, 2]),
        Reason::Number,
        4,
    ),
    (
        ONE_WAY,
        Forged::Violations([1, 1, 2, 2, 1]),
        Reason::Number,
        5,
    ),
    (
        THREE,
        Forged::Violations([2, 0, 0, 3, 3]),
        Reason::Number,
        1,
    ),
    (
        THREE,
        Forged::Violations([3, 3, 0, 3, 3]),
        Reason::Number,
        2,
    ),
    (
        THREE,
        Forged::Violations([3, 0, 3, 3, 3]),
        Reason::Number,
        3,
    ),
    (
        THREE,
        Forged::Violations([3, 0, 0, 0, 3]),
        Reason::Number,
        4,
    ),
    (
        EQUAL,
        Forged::Violations([2, 0, 2, 2, 0]),
        Reason::Number,
        1,
    ),
    (
        EQUAL,
        Forged::Violations([0, 0, 0, 2, 0]),
        Reason::Number,
        3,
    ),
    (
        ONE_BUNDLE,
        Forged::Violations([0, 0, 2, 0, 0]),
        Reason::Number,
        3,
    ),
    (
        ONE_BUNDLE,
        Forged::Violations([0, 0, 0, 2, 0]),
        Reason::Number,
        4,
    ),
    (
        ALONE,
        Forged::Violations([0, 0, 0, 0, 1]),
        Reason::Number,
        5,
    ),
];

#[test]
fn wrong_counts_are_rejected(rt: HostRuntime) -> Result<(), Fail> {
    assert_rejected(&rt, rt.alloc(), COUNTS)
}
