//! Forged steps to be taken away.
use crate::forged::Forged;
use crate::refused::{FORK, ONE_WAY, UNEVEN};
use crate::verdicts::{Case, assert_rejected};
use rp_evidence::Reason;
use std::test::Fail;
use tests_inputs::tables::{CONTRADICTION, EQUAL};

/// In the order of the clauses: the denominator, the steps, their ranks and cost, the walks, and what they load.
const STEPS: &[Case] = &[
    (
        CONTRADICTION,
        Forged::Steps(&[&[], &[0]], 1, &[1, 0], 0, &[]),
        Reason::Number,
        0,
    ),
    (
        CONTRADICTION,
        Forged::Steps(&[&[]], 1, &[1, 0], 1, &[]),
        Reason::Shape,
        1,
    ),
    (
        CONTRADICTION,
        Forged::Steps(&[&[], &[0]], 1, &[1], 1, &[]),
        Reason::Shape,
        2,
    ),
    (
        CONTRADICTION,
        Forged::Steps(&[&[2], &[0]], 1, &[1, 0], 1, &[]),
        Reason::Set,
        1,
    ),
    (
        CONTRADICTION,
        Forged::Steps(&[&[], &[0, 0]], 1, &[1, 0], 1, &[]),
        Reason::Set,
        2,
    ),
    (
        EQUAL,
        Forged::Steps(&[&[1], &[]], 0, &[0, 0], 1, &[]),
        Reason::Set,
        1,
    ),
    (
        FORK,
        Forged::Steps(&[&[2, 1], &[], &[]], 5, &[0, 1, 1], 1, &[]),
        Reason::Set,
        1,
    ),
    (
        CONTRADICTION,
        Forged::Steps(&[&[], &[0]], 1, &[0, 0], 1, &[]),
        Reason::Order,
        1,
    ),
    (
        CONTRADICTION,
        Forged::Steps(&[&[], &[]], 0, &[1, 0], 1, &[]),
        Reason::Order,
        2,
    ),
    (
        CONTRADICTION,
        Forged::Steps(&[&[], &[0]], 0, &[1, 0], 1, &[]),
        Reason::Bound,
        0,
    ),
    (
        CONTRADICTION,
        Forged::Steps(&[&[], &[0]], 2, &[1, 0], 1, &[]),
        Reason::Bound,
        0,
    ),
    (
        FORK,
        Forged::Steps(&[&[1, 2], &[], &[]], 4, &[0, 1, 1], 1, &[]),
        Reason::Bound,
        0,
    ),
    (
        CONTRADICTION,
        Forged::Steps(&[&[], &[0]], 1, &[1, 0], 1, &[(0, &[0, 1, 0])]),
        Reason::Number,
        1,
    ),
    (
        CONTRADICTION,
        Forged::Steps(&[&[], &[0]], 1, &[1, 0], 1, &[(1, &[0, 1])]),
        Reason::Set,
        1,
    ),
    (
        CONTRADICTION,
        Forged::Steps(&[&[], &[0]], 1, &[1, 0], 1, &[(1, &[0, 0])]),
        Reason::Set,
        1,
    ),
    (
        CONTRADICTION,
        Forged::Steps(&[&[], &[0]], 1, &[1, 0], 1, &[(1, &[0, 1, 0, 1, 0])]),
        Reason::Set,
        1,
    ),
    (
        ONE_WAY,
        Forged::Steps(&[&[], &[]], 0, &[0, 1], 1, &[(1, &[0, 1, 0])]),
        Reason::Set,
        1,
    ),
    (
        CONTRADICTION,
        Forged::Steps(&[&[], &[0]], 1, &[1, 0], 1, &[(2, &[0, 1, 0])]),
        Reason::Dual,
        1,
    ),
    (
        CONTRADICTION,
        Forged::Steps(
            &[&[], &[0]],
            1,
            &[1, 0],
            1,
            &[(1, &[0, 1, 0]), (1, &[1, 0, 1])],
        ),
        Reason::Dual,
        1,
    ),
    (
        UNEVEN,
        Forged::Steps(&[&[], &[0]], 1, &[1, 0], 1, &[(2, &[0, 1, 0])]),
        Reason::Dual,
        2,
    ),
];

#[test]
fn forged_steps_are_rejected(rt: HostRuntime) -> Result<(), Fail> {
    assert_rejected(&rt, rt.alloc(), STEPS)
}
