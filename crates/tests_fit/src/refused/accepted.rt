//! Evidence on ties and small tables that is accepted.
use crate::forged::Forged;
use crate::refused::{
    FIRST, FORK, OF_LEVEL, OF_MEAN, OF_PUMP, ONE_BUNDLE, ONE_WAY, PAIR, TENTH, UNEVEN, WHOLE,
};
use crate::verdicts::assert_accepted;
use rp_fit::GroupKind::{Cycle, Pairs};
use rp_fit::Lack::Mean;
use std::test::Fail;
use tests_inputs::tables::{ALONE, CONTRADICTION, EQUAL, NINE_TENTHS, THREE};

/// Ties, one observation, weights over 2, and a bound that is rounded down. In `FORK` two walks leave the first
/// observation by different steps.
const ACCEPTED: &[(&str, Forged)] = &[
    (ONE_WAY, Forged::Violations([1, 1, 2, 2, 2])),
    (EQUAL, Forged::Violations([0, 0, 2, 2, 0])),
    (ONE_BUNDLE, Forged::Violations([0, 0, 0, 0, 0])),
    (ALONE, Forged::Violations([0, 0, 0, 0, 0])),
    (
        EQUAL,
        Forged::Kept(
            &[0, 1],
            &[0, 0],
            1,
            &[(1, Pairs, &[0]), (1, Pairs, &[1])],
            2,
        ),
    ),
    (ALONE, Forged::Kept(&[0], &[0], 1, FIRST, 1)),
    (ONE_WAY, Forged::Kept(&[1], &[0], 1, PAIR, 1)),
    (
        CONTRADICTION,
        Forged::Kept(&[0], &[0], 2, &[(2, Pairs, &[0, 1])], 1),
    ),
    (
        THREE,
        Forged::Kept(
            &[0, 1],
            &[1, 0],
            2,
            &[(2, Cycle, &[0, 1, 2, 0]), (1, Pairs, &[0])],
            2,
        ),
    ),
    (ONE_WAY, Forged::Levels(Mean, &[0, 1], &[0, 1], 1, &[])),
    (
        NINE_TENTHS,
        Forged::Levels(Mean, &[0, 0], &[1, 0], 1, &[(TENTH, &[0, 1, 0])]),
    ),
    (
        FORK,
        Forged::Levels(
            Mean,
            &[2, 1, 2],
            &[0, 1, 1],
            1,
            &[(WHOLE / 2, &[0, 1, 0]), (WHOLE / 4, &[0, 2, 0])],
        ),
    ),
    (
        UNEVEN,
        Forged::Steps(&[&[], &[0]], 1, &[1, 0], 1, &[(1, &[0, 1, 0])]),
    ),
    (
        FORK,
        Forged::Steps(
            &[&[1, 2], &[], &[]],
            5,
            &[0, 1, 1],
            1,
            &[(2, &[0, 1, 0]), (3, &[0, 2, 0])],
        ),
    ),
    (
        CONTRADICTION,
        Forged::Steps(&[&[], &[0]], 1, &[1, 0], 2, &[(2, &[0, 1, 0])]),
    ),
    (
        NINE_TENTHS,
        Forged::Pump(1, 6, &[0, 1, 0], &[OF_PUMP, OF_PUMP - 20]),
    ),
    (
        CONTRADICTION,
        Forged::Quasilinear(8, 10, &[0, 1, 0], &[OF_LEVEL, OF_LEVEL]),
    ),
    (
        CONTRADICTION,
        Forged::Homothetic(0, WHOLE, &[0, 1, 0], &[1, OF_MEAN]),
    ),
];

#[test]
fn evidence_is_accepted(rt: HostRuntime) -> Result<(), Fail> {
    assert_accepted(&rt, rt.alloc(), ACCEPTED)
}
