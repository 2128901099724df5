//! Forged money pumps.
use crate::forged::Forged;
use crate::refused::OF_PUMP;
use crate::verdicts::{Case, assert_rejected};
use rp_evidence::Reason;
use std::test::Fail;
use tests_inputs::tables::{CONTRADICTION, MORE_AND_LESS, NINE_TENTHS};

/// An efficiency index of 0. Then in the order of the clauses: the ratio and its width, the walk, and the values.
const PUMPS: &[Case] = &[
    (
        CONTRADICTION,
        Forged::Efficiency((0, 5), &[1, 1], &[0, 1, 0], &[2, 2]),
        Reason::Level,
        0,
    ),
    (
        NINE_TENTHS,
        Forged::Pump(0, 0, &[0, 1, 0], &[0, 0]),
        Reason::Number,
        0,
    ),
    (
        NINE_TENTHS,
        Forged::Pump(1 << 58, 6 << 58, &[0, 1, 0], &[0, -(20 << 58)]),
        Reason::Wide,
        0,
    ),
    (
        NINE_TENTHS,
        Forged::Pump(1, 6, &[0, 1, 0, 1, 0], &[0, -20]),
        Reason::Shape,
        1,
    ),
    (
        NINE_TENTHS,
        Forged::Pump(1, 6, &[0], &[0, -20]),
        Reason::Shape,
        0,
    ),
    (
        NINE_TENTHS,
        Forged::Pump(1, 6, &[0, 2, 0], &[0, -20]),
        Reason::Number,
        2,
    ),
    (
        NINE_TENTHS,
        Forged::Pump(1, 6, &[0, 1], &[0, -20]),
        Reason::NotClosed,
        0,
    ),
    (
        MORE_AND_LESS,
        Forged::Pump(0, 1, &[0, 1, 0], &[0, -4]),
        Reason::NotWeak,
        2,
    ),
    (
        NINE_TENTHS,
        Forged::Pump(1, 5, &[0, 1, 0], &[0, -15]),
        Reason::Bound,
        0,
    ),
    (
        NINE_TENTHS,
        Forged::Pump(1, 6, &[0, 1, 0], &[0]),
        Reason::Shape,
        2,
    ),
    (
        NINE_TENTHS,
        Forged::Pump(1, 6, &[0, 1, 0], &[OF_PUMP + 1, OF_PUMP - 19]),
        Reason::Number,
        1,
    ),
    (
        NINE_TENTHS,
        Forged::Pump(1, 6, &[0, 1, 0], &[19 - OF_PUMP, -OF_PUMP - 1]),
        Reason::Number,
        2,
    ),
    (
        NINE_TENTHS,
        Forged::Pump(1, 6, &[0, 1, 0], &[0, -19]),
        Reason::Order,
        1,
    ),
    (
        NINE_TENTHS,
        Forged::Pump(1, 6, &[0, 1, 0], &[0, -21]),
        Reason::Order,
        2,
    ),
];

#[test]
fn forged_pumps_are_rejected(rt: HostRuntime) -> Result<(), Fail> {
    assert_rejected(&rt, rt.alloc(), PUMPS)
}
