//! Forged cycles, ranks, Afriat numbers and indices, with the clause that they fail first.
use crate::checker::cases::{Case, assert_answers};
use crate::checker::forged::Forged::{Cycle, Index, LevelOf, Model, NoModel, Ranks};
use rp_evidence::Reason::{Level, NoStrict, NotClosed, NotWeak, Number, Order, Shape};
use std::test::Fail;
use tests_inputs::tables::{ALONE, APART, CONTRADICTION, EQUAL, MORE_AND_LESS, NINE_TENTHS};

const CYCLES: &[Case] = &[
    (CONTRADICTION, Cycle(&[0, 1, 0]), None),
    (CONTRADICTION, Cycle(&[0, 0, 1, 0]), None),
    (CONTRADICTION, Cycle(&[]), Some((1, Shape, 0))),
    (CONTRADICTION, Cycle(&[0]), Some((1, Shape, 0))),
    (CONTRADICTION, Cycle(&[0, 2, 0]), Some((1, Number, 2))),
    (CONTRADICTION, Cycle(&[4294967295, 0]), Some((1, Number, 1))),
    (
        CONTRADICTION,
        Cycle(&[0, 1, 4294967295]),
        Some((1, Number, 3)),
    ),
    (CONTRADICTION, Cycle(&[0, 1]), Some((1, NotClosed, 0))),
    (APART, Cycle(&[0, 1, 0]), Some((1, NotWeak, 1))),
    (MORE_AND_LESS, Cycle(&[0, 1, 0]), Some((1, NotWeak, 2))),
    (EQUAL, Cycle(&[0, 1, 0]), Some((1, NoStrict, 0))),
    (CONTRADICTION, Cycle(&[0, 0]), Some((1, NoStrict, 0))),
    (EQUAL, Cycle(&[0, 1, 2]), Some((1, Number, 3))),
];

#[test]
fn forged_cycles(rt: HostRuntime) -> Result<(), Fail> {
    assert_answers(&rt, rt.alloc(), &[], CYCLES)
}

const RANKS: &[Case] = &[
    (APART, Ranks(&[0, 4294967295]), None),
    (APART, Ranks(&[]), Some((1, Shape, 0))),
    (APART, Ranks(&[1]), Some((1, Shape, 0))),
    (APART, Ranks(&[1, 1, 1]), Some((1, Shape, 0))),
    (CONTRADICTION, Ranks(&[1, 1]), Some((1, Order, 1))),
    // a strict step that stays
    (MORE_AND_LESS, Ranks(&[1, 1]), Some((1, Order, 1))),
    // a weak step that rises
    (EQUAL, Ranks(&[1, 2]), Some((1, Order, 1))),
    (EQUAL, Ranks(&[2, 1]), Some((1, Order, 2))),
    (EQUAL, Ranks(&[4294967295, 4294967295]), None),
    (MORE_AND_LESS, Ranks(&[2, 1]), None),
];

#[test]
fn forged_ranks(rt: HostRuntime) -> Result<(), Fail> {
    assert_answers(&rt, rt.alloc(), &[], RANKS)
}

const MODELS: &[Case] = &[
    (MORE_AND_LESS, Model(&[0, -4], &[1, 1]), None),
    (MORE_AND_LESS, Model(&[], &[]), Some((1, Shape, 0))),
    (MORE_AND_LESS, Model(&[0], &[1, 1]), Some((1, Shape, 0))),
    (
        MORE_AND_LESS,
        Model(&[0, -4], &[1, 1, 1]),
        Some((1, Shape, 0)),
    ),
    (
        MORE_AND_LESS,
        Model(&[0, -4], &[1, 0]),
        Some((1, Number, 2)),
    ),
    (MORE_AND_LESS, Model(&[0, 0], &[1, 1]), Some((1, Order, 1))),
    (MORE_AND_LESS, Model(&[0, -5], &[1, 1]), Some((1, Order, 2))),
    // both ends of the widths
    (MORE_AND_LESS, Model(&[0, -4], &[1, 1 << 60]), None),
    (
        MORE_AND_LESS,
        Model(&[0, -4], &[1, (1 << 60) + 1]),
        Some((1, Number, 2)),
    ),
    (ALONE, Model(&[1 << 120], &[1]), None),
    (ALONE, Model(&[-(1 << 120)], &[1]), None),
    (ALONE, Model(&[(1 << 120) + 1], &[1]), Some((1, Number, 1))),
    (ALONE, Model(&[-(1 << 120) - 1], &[1]), Some((1, Number, 1))),
    (ALONE, Model(&[i128::MAX], &[1]), Some((1, Number, 1))),
    (ALONE, Model(&[i128::MIN], &[1]), Some((1, Number, 1))),
    (ALONE, Model(&[0], &[u64::MAX]), Some((1, Number, 1))),
    (APART, NoModel(&[0, 1, 0]), Some((1, NotWeak, 1))),
];

#[test]
fn forged_models(rt: HostRuntime) -> Result<(), Fail> {
    assert_answers(&rt, rt.alloc(), &[], MODELS)
}

/// Levels with the other evidence of the index 4/5.
const LEVELS: &[Case] = &[
    (CONTRADICTION, LevelOf(4, 5), None),
    // a level is taken as it is written
    (CONTRADICTION, LevelOf(8, 10), None),
    (CONTRADICTION, LevelOf(0, 1), Some((1, Level, 0))),
    (CONTRADICTION, LevelOf(0, 0), Some((1, Level, 0))),
    (CONTRADICTION, LevelOf(6, 5), Some((1, Level, 0))),
    (CONTRADICTION, LevelOf(4, 1 << 51), Some((1, Level, 0))),
    (
        CONTRADICTION,
        LevelOf(u64::MAX, u64::MAX),
        Some((1, Level, 0)),
    ),
    (
        CONTRADICTION,
        LevelOf(4, (1 << 51) - 1),
        Some((1, NotWeak, 1)),
    ),
    (CONTRADICTION, LevelOf(9, 10), Some((1, Order, 1))),
    (CONTRADICTION, LevelOf(3, 4), Some((1, NotWeak, 1))),
];

#[test]
fn forged_levels(rt: HostRuntime) -> Result<(), Fail> {
    assert_answers(&rt, rt.alloc(), &[], LEVELS)
}

const INDICES: &[Case] = &[
    (
        CONTRADICTION,
        Index((4, 5), &[1], &[0, 1, 0], true, &[2, 2]),
        Some((1, Shape, 0)),
    ),
    (
        CONTRADICTION,
        Index((4, 5), &[1, 1], &[], true, &[2, 2]),
        Some((1, Shape, 0)),
    ),
    (
        CONTRADICTION,
        Index((4, 5), &[1, 1], &[0, 1], true, &[2, 2]),
        Some((1, NotClosed, 0)),
    ),
    (
        CONTRADICTION,
        Index((4, 5), &[1, 1], &[0, 2, 0], true, &[2, 2]),
        Some((1, Number, 2)),
    ),
    (
        CONTRADICTION,
        Index((4, 5), &[1, 1], &[0, 1, 0], true, &[2]),
        Some((1, Shape, 0)),
    ),
    (
        CONTRADICTION,
        Index((4, 5), &[1, 1], &[0, 1, 0], true, &[1, 2]),
        Some((1, Order, 1)),
    ),
    (
        CONTRADICTION,
        Index((4, 5), &[1, 1], &[0, 1, 0], false, &[0, 1, 0]),
        Some((1, NoStrict, 0)),
    ),
    (
        CONTRADICTION,
        Index((1, 1), &[1, 1], &[], true, &[2, 2]),
        Some((1, Order, 1)),
    ),
    (
        APART,
        Index((1, 1), &[1, 1], &[0, 1, 0], true, &[1, 1]),
        Some((1, Shape, 1)),
    ),
    (
        APART,
        Index(((1 << 51) - 1, (1 << 51) - 1), &[1, 1], &[], true, &[1, 1]),
        None,
    ),
    // an index that is not attained
    (
        NINE_TENTHS,
        Index((9, 10), &[2, 1], &[0, 1, 0], false, &[1, 0, 1]),
        None,
    ),
    (
        NINE_TENTHS,
        Index((9, 10), &[2, 1], &[0, 1, 0], true, &[2, 1]),
        Some((1, Order, 2)),
    ),
];

#[test]
fn forged_parts_of_an_efficiency_index(rt: HostRuntime) -> Result<(), Fail> {
    assert_answers(&rt, rt.alloc(), &[], INDICES)
}
