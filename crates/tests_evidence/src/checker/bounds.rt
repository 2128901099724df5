//! Forged evidence on demand and welfare, with the clause that it fails first.
use crate::checker::cases::{Case, assert_answers};
use crate::checker::forged::Forged::{
    Goods, NoDemand, NoGoods, NoWelfare, Points, Welfare, WideGoods, WideWelfare,
};
use rp_evidence::Reason::{Bound, Least, NoGarp, NotWeak, Number, Point, Set, Shape};
use std::test::Fail;
use tests_inputs::tables::{APART, MORE_AND_LESS};

const POINTS: &[Case] = &[
    (APART, Points(&[0, 1], &[], &[2, 1], 1), None),
    (APART, Points(&[0, 1], &[], &[4, 2], 2), None),
    (APART, Points(&[0], &[], &[2, 1], 1), Some((2, Set, 1))),
    (APART, Points(&[1, 0], &[], &[2, 1], 1), Some((2, Set, 1))),
    (APART, Points(&[], &[], &[2, 1], 1), Some((2, Set, 1))),
    (
        APART,
        Points(&[0, 1, 4294967295], &[], &[2, 1], 1),
        Some((2, Set, 1)),
    ),
    (APART, Points(&[0, 1], &[0], &[2, 1], 1), Some((2, Set, 2))),
    (
        APART,
        Points(&[0, 1], &[], &[2, 1], 0),
        Some((2, Number, 0)),
    ),
    (APART, Points(&[0, 1], &[], &[2], 1), Some((2, Shape, 1))),
    (
        APART,
        Points(&[0, 1], &[], &[2, 1, 0], 1),
        Some((2, Shape, 1)),
    ),
    (APART, Points(&[0, 1], &[], &[3, 1], 1), Some((2, Point, 0))),
    (
        APART,
        Points(&[0, 1], &[], &[u64::MAX, u64::MAX], u64::MAX),
        Some((2, Point, 0)),
    ),
    (APART, Points(&[0, 1], &[], &[3, 0], 1), Some((2, Point, 1))),
    (APART, Points(&[0, 1], &[], &[0, 3], 1), Some((2, Point, 2))),
];

#[test]
fn forged_sets_and_points(rt: HostRuntime) -> Result<(), Fail> {
    assert_answers(&rt, rt.alloc(), &[1, 1], POINTS)
}

const GOODS: &[Case] = &[
    (APART, Goods([1, 2, 1, 2], &[1, 2], 1), None),
    (APART, Goods([0, 2, 1, 2], &[1, 2], 1), Some((2, Bound, 1))),
    (APART, Goods([1, 1, 1, 2], &[1, 2], 1), Some((2, Bound, 2))),
    (APART, Goods([1, 2, 2, 2], &[1, 2], 1), Some((2, Bound, 3))),
    (APART, Goods([1, 2, 1, 3], &[1, 2], 1), Some((2, Bound, 4))),
    // a pair that is not one
    (APART, Goods([1, 2, 1, 2], &[1, 2], 0), Some((2, Bound, 1))),
    (APART, Goods([1, 2, 1, 2], &[1, 2], 2), Some((2, Bound, 1))),
    (APART, Goods([2, 2, 1, 2], &[2, 1], 1), Some((2, Bound, 1))),
    (APART, Goods([1, 2, 1, 2], &[1], 1), Some((2, Bound, 1))),
    (APART, WideGoods, None),
    (APART, NoGoods, Some((2, Shape, 2))),
];

#[test]
fn forged_bounds_of_goods(rt: HostRuntime) -> Result<(), Fail> {
    assert_answers(&rt, rt.alloc(), &[1, 1], GOODS)
}

/// A violation that is none, in place of demand at these prices and expenditures.
const PRICES: &[Case] = &[
    (APART, NoDemand(&[1, 1], 3), Some((2, NotWeak, 1))),
    (
        APART,
        NoDemand(&[9_999_999, 1], 1_600_000_000_000_000),
        Some((2, NotWeak, 1)),
    ),
    (APART, NoDemand(&[], 3), Some((2, Shape, 0))),
    (APART, NoDemand(&[1], 3), Some((2, Shape, 0))),
    (APART, NoDemand(&[1, 1, 1], 0), Some((2, Shape, 0))),
    (APART, NoDemand(&[1, 0], 0), Some((2, Number, 2))),
    (APART, NoDemand(&[10_000_000, 0], 3), Some((2, Number, 1))),
    (APART, NoDemand(&[1, 1], 0), Some((2, Number, 0))),
    (
        APART,
        NoDemand(&[1, 1], 1_600_000_000_000_001),
        Some((2, Number, 0)),
    ),
];

#[test]
fn forged_prices(rt: HostRuntime) -> Result<(), Fail> {
    assert_answers(&rt, rt.alloc(), &[1, 1], PRICES)
}

const WELFARE: &[Case] = &[
    (MORE_AND_LESS, Welfare(&[1, 2], 0, 12, 0, 8, 8), None),
    (MORE_AND_LESS, Welfare(&[1, 2], 1, 6, 1, 4, 4), None),
    (
        MORE_AND_LESS,
        Welfare(&[1], 0, 12, 0, 8, 8),
        Some((2, Shape, 0)),
    ),
    (
        MORE_AND_LESS,
        Welfare(&[1, 0], 0, 12, 0, 8, 8),
        Some((2, Number, 2)),
    ),
    (
        MORE_AND_LESS,
        Welfare(&[1, 2], 2, 12, 0, 8, 8),
        Some((2, Number, 0)),
    ),
    (
        MORE_AND_LESS,
        Welfare(&[1, 2], 0, 12, 4294967295, 8, 8),
        Some((2, Number, 0)),
    ),
    (
        MORE_AND_LESS,
        Welfare(&[1, 2], 0, 6, 1, 8, 8),
        Some((2, Set, 1)),
    ),
    (
        MORE_AND_LESS,
        Welfare(&[1, 2], 0, 11, 0, 8, 8),
        Some((2, Point, 0)),
    ),
    (
        MORE_AND_LESS,
        Welfare(&[1, 2], 0, u64::MAX, 0, 8, 8),
        Some((2, Point, 0)),
    ),
    (
        MORE_AND_LESS,
        Welfare(&[1, 2], 1, 12, 0, 4, 4),
        Some((2, Least, 2)),
    ),
    (
        MORE_AND_LESS,
        Welfare(&[1, 2], 0, 12, 0, 7, 8),
        Some((2, Bound, 1)),
    ),
    (
        MORE_AND_LESS,
        Welfare(&[1, 2], 0, 12, 0, 4, 4),
        Some((2, Bound, 1)),
    ),
    (
        MORE_AND_LESS,
        Welfare(&[1, 2], 0, 12, 0, 8, u64::MAX),
        Some((2, Bound, 1)),
    ),
    (MORE_AND_LESS, WideWelfare, None),
];

#[test]
fn forged_welfare(rt: HostRuntime) -> Result<(), Fail> {
    assert_answers(&rt, rt.alloc(), &[2, 1], WELFARE)
}

/// Bounds before which nothing shows that the axiom holds, and violations that are none.
const WITHOUT_RANKS: &[Case] = &[
    (
        APART,
        Points(&[0, 1], &[], &[2, 1], 1),
        Some((1, NoGarp, 0)),
    ),
    (
        MORE_AND_LESS,
        Welfare(&[1, 2], 0, 12, 0, 8, 8),
        Some((1, NoGarp, 0)),
    ),
    (MORE_AND_LESS, NoWelfare(2, &[]), Some((1, Number, 0))),
    (
        MORE_AND_LESS,
        NoWelfare(0, &[0, 1, 0]),
        Some((1, NotWeak, 2)),
    ),
];

#[test]
fn demand_and_welfare_without_ranks(rt: HostRuntime) -> Result<(), Fail> {
    assert_answers(&rt, rt.alloc(), &[], WITHOUT_RANKS)
}
