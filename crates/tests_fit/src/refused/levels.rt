//! Forged levels of the observations' own.
use crate::forged::Forged;
use crate::refused::{FORK, ONE_WAY, TENTH, WHOLE};
use crate::verdicts::{Case, assert_rejected};
use rp_evidence::Reason;
use rp_fit::Lack::{Mean, Squares};
use std::test::Fail;
use tests_inputs::tables::{CONTRADICTION, EQUAL, MORE_AND_LESS, NINE_TENTHS};

/// A fifth of 2^40, rounded down.
const FIFTH: u64 = 219_902_325_555;

/// A twenty-fifth of 2^40, rounded down.
const TWENTY_FIFTH: u64 = 43_980_465_111;

/// In the order of the clauses: the denominator, the levels and their ranks, the walks, and what they load.
const LEVELS: &[Case] = &[
    (
        CONTRADICTION,
        Forged::Levels(Mean, &[0, 0], &[1, 0], 0, &[]),
        Reason::Number,
        0,
    ),
    (
        CONTRADICTION,
        Forged::Levels(Mean, &[0], &[1, 0], 1, &[]),
        Reason::Shape,
        1,
    ),
    (
        CONTRADICTION,
        Forged::Levels(Mean, &[0, 0], &[1], 1, &[]),
        Reason::Shape,
        2,
    ),
    (
        CONTRADICTION,
        Forged::Levels(Mean, &[0, 2], &[1, 0], 1, &[]),
        Reason::Level,
        2,
    ),
    (
        MORE_AND_LESS,
        Forged::Levels(Mean, &[0, 0], &[1, 0], 1, &[]),
        Reason::Level,
        2,
    ),
    (
        EQUAL,
        Forged::Levels(Mean, &[1, 1], &[0, 0], 1, &[]),
        Reason::Level,
        1,
    ),
    (
        CONTRADICTION,
        Forged::Levels(Mean, &[0, 0], &[0, 0], 1, &[]),
        Reason::Order,
        1,
    ),
    (
        CONTRADICTION,
        Forged::Levels(Mean, &[0, 1], &[1, 0], 1, &[]),
        Reason::Order,
        2,
    ),
    (
        CONTRADICTION,
        Forged::Levels(Mean, &[0, 0], &[1, 0], 1, &[(0, &[0, 1, 0])]),
        Reason::Number,
        1,
    ),
    (
        CONTRADICTION,
        Forged::Levels(
            Mean,
            &[0, 0],
            &[1, 0],
            1,
            &[(1, &[0, 1, 0]), (0, &[0, 1, 0])],
        ),
        Reason::Number,
        2,
    ),
    (
        CONTRADICTION,
        Forged::Levels(Mean, &[0, 0], &[1, 0], 1, &[(1, &[0, 1])]),
        Reason::Set,
        1,
    ),
    (
        CONTRADICTION,
        Forged::Levels(Mean, &[0, 0], &[1, 0], 1, &[(1, &[0, 2, 0])]),
        Reason::Set,
        1,
    ),
    (
        CONTRADICTION,
        Forged::Levels(Mean, &[0, 0], &[1, 0], 1, &[(1, &[0, 1, 0, 1, 0])]),
        Reason::Set,
        1,
    ),
    (
        ONE_WAY,
        Forged::Levels(Mean, &[0, 1], &[0, 1], 1, &[(1, &[0, 1, 0])]),
        Reason::Set,
        1,
    ),
    (
        CONTRADICTION,
        Forged::Levels(Mean, &[0, 0], &[1, 0], 1, &[(FIFTH + 1, &[0, 1, 0])]),
        Reason::Dual,
        1,
    ),
    (
        CONTRADICTION,
        Forged::Levels(
            Mean,
            &[0, 0],
            &[1, 0],
            1,
            &[(FIFTH, &[0, 1, 0]), (1, &[1, 0, 1])],
        ),
        Reason::Dual,
        1,
    ),
    (
        NINE_TENTHS,
        Forged::Levels(Mean, &[0, 0], &[1, 0], 1, &[(TENTH + 1, &[0, 1, 0])]),
        Reason::Dual,
        2,
    ),
    (
        CONTRADICTION,
        Forged::Levels(
            Squares,
            &[0, 0],
            &[1, 0],
            1,
            &[(TWENTY_FIFTH + 1, &[0, 1, 0])],
        ),
        Reason::Dual,
        1,
    ),
    (
        FORK,
        Forged::Levels(
            Mean,
            &[2, 1, 2],
            &[0, 1, 1],
            1,
            &[(WHOLE / 2, &[0, 1, 0]), (WHOLE / 4 + 1, &[0, 2, 0])],
        ),
        Reason::Dual,
        1,
    ),
];

#[test]
fn forged_levels_are_rejected(rt: HostRuntime) -> Result<(), Fail> {
    assert_rejected(&rt, rt.alloc(), LEVELS)
}
