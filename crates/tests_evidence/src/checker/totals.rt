//! Forged values and walks of the homothetic and the quasilinear test, with the clause that each fails first; several
//! items.
use crate::checker::cases::{Answer, Case, answer, assert_answer, assert_answers};
use crate::checker::forged::Forged::{Falling, Negative, Products, Sums};
use crate::checker::items::list;
use rp_evidence::Reason::{NotClosed, NotLess, Number, Order, Shape, Wide};
use rp_evidence::{AfriatPart, Garp, Homothetic, Item, Quasi};
use rp_num::Seq;
use std::alloc::Global;
use std::process::Abort;
use std::test::Fail;
use tests_inputs::tables::{ALONE, APART, CONTRADICTION, MORE_AND_LESS};

/// The greatest part of a fraction.
const WIDEST: u128 = (1 << 127) - 1;

const PRODUCTS: &[Case] = &[
    (MORE_AND_LESS, Products(&[(1, 1), (1, 2)]), None),
    (
        MORE_AND_LESS,
        Products(&[(1, 1), (0, 1)]),
        Some((1, Number, 2)),
    ),
    (
        CONTRADICTION,
        Products(&[(1, 1), (1, 1)]),
        Some((1, Order, 1)),
    ),
    (
        MORE_AND_LESS,
        Products(&[(1, 1), (1, 4)]),
        Some((1, Order, 2)),
    ),
    (
        CONTRADICTION,
        Products(&[(WIDEST, 1), (1, 1)]),
        Some((1, Wide, 1)),
    ),
    (APART, Products(&[(1, 1), (1, WIDEST)]), Some((1, Wide, 2))),
    // the steps from the first come before those from the second
    (
        CONTRADICTION,
        Products(&[(1, 1), (WIDEST, 1)]),
        Some((1, Order, 1)),
    ),
    (APART, Products(&[]), Some((1, Shape, 0))),
];

#[test]
fn forged_products(rt: HostRuntime) -> Result<(), Fail> {
    assert_answers(&rt, rt.alloc(), &[], PRODUCTS)
}

const FALLING: &[Case] = &[
    (CONTRADICTION, Falling(1, 1, &[0, 1, 0]), None),
    (CONTRADICTION, Falling(25, WIDEST, &[0, 1, 0]), None),
    (
        CONTRADICTION,
        Falling(0, 1, &[0, 1, 0]),
        Some((1, Number, 0)),
    ),
    (CONTRADICTION, Falling(1, 1, &[]), Some((1, Shape, 0))),
    (
        CONTRADICTION,
        Falling(1, 1, &[0, 1]),
        Some((1, NotClosed, 0)),
    ),
    (
        CONTRADICTION,
        Falling(1, 1, &[0, 2, 0]),
        Some((1, Number, 2)),
    ),
    (APART, Falling(1, 1, &[0, 1, 0]), Some((1, NotLess, 0))),
    (CONTRADICTION, Falling(1, 1, &[0, 0]), Some((1, NotLess, 0))),
    (
        CONTRADICTION,
        Falling(WIDEST, 1, &[0, 1, 0]),
        Some((1, Wide, 1)),
    ),
    (
        CONTRADICTION,
        Falling(1, WIDEST, &[0, 1, 0]),
        Some((1, Wide, 1)),
    ),
    (
        CONTRADICTION,
        Falling(5 << 124, 1, &[0, 1, 0]),
        Some((1, Wide, 2)),
    ),
];

#[test]
fn forged_falling_cycles(rt: HostRuntime) -> Result<(), Fail> {
    assert_answers(&rt, rt.alloc(), &[], FALLING)
}

const SUMS: &[Case] = &[
    (MORE_AND_LESS, Sums(&[0, -4]), None),
    (APART, Sums(&[]), Some((1, Shape, 0))),
    (APART, Sums(&[0]), Some((1, Shape, 0))),
    (CONTRADICTION, Sums(&[0, 0]), Some((1, Order, 1))),
    (MORE_AND_LESS, Sums(&[0, -3]), Some((1, Order, 1))),
    (MORE_AND_LESS, Sums(&[0, -5]), Some((1, Order, 2))),
    (ALONE, Sums(&[1 << 100]), None),
    (ALONE, Sums(&[-(1 << 100)]), None),
    (ALONE, Sums(&[(1 << 100) + 1]), Some((1, Number, 1))),
    (ALONE, Sums(&[-(1 << 100) - 1]), Some((1, Number, 1))),
    (ALONE, Sums(&[i128::MAX]), Some((1, Number, 1))),
    (ALONE, Sums(&[i128::MIN]), Some((1, Number, 1))),
];

#[test]
fn forged_sums(rt: HostRuntime) -> Result<(), Fail> {
    assert_answers(&rt, rt.alloc(), &[], SUMS)
}

const NEGATIVE: &[Case] = &[
    (CONTRADICTION, Negative(&[0, 1, 0]), None),
    (CONTRADICTION, Negative(&[]), Some((1, Shape, 0))),
    (CONTRADICTION, Negative(&[0, 1]), Some((1, NotClosed, 0))),
    (CONTRADICTION, Negative(&[7, 7]), Some((1, Number, 1))),
    (APART, Negative(&[0, 1, 0]), Some((1, NotLess, 0))),
    // a sum of just 0
    (MORE_AND_LESS, Negative(&[0, 1, 0]), Some((1, NotLess, 0))),
];

#[test]
fn forged_negative_cycles(rt: HostRuntime) -> Result<(), Fail> {
    assert_answers(&rt, rt.alloc(), &[], NEGATIVE)
}

/// What the checker answers on a walk as a violation, values of the quasilinear test and a walk of negative sum.
fn answer_on_three(
    alloc: Global,
    text: &str,
    violation: &[u32],
    values: &[i128],
    walk: &[u32],
) -> Result<Answer, Fail> {
    let mut items = Vec::new(alloc);
    items.push(Item::Garp(Garp::Cycle(list(alloc, violation)?)))?;
    let values = Seq::from_vec(values.to_vec(alloc)?);
    items.push(Item::Quasi(Quasi::Values(values)))?;
    items.push(Item::Quasi(Quasi::Cycle(list(alloc, walk)?)))?;
    answer(alloc, text, items)
}

/// A walk as a violation, values of the quasilinear test, a walk of negative sum, and the answer.
type Three = (&'static [u32], &'static [i128], &'static [u32], Answer);

const THREE_ITEMS: &[Three] = &[
    (&[0, 1, 0], &[0], &[0, 1, 0], Some((2, Shape, 0))),
    (&[0, 1, 0], &[0, 0], &[], Some((2, Order, 1))),
    (&[0, 1], &[0, 0], &[], Some((1, NotClosed, 0))),
    (&[], &[], &[], Some((1, Shape, 0))),
];

/// Asserts what the checker answers on the three items of each.
fn assert_first_failures(rt: &impl Abort, alloc: Global, cases: &[Three]) -> Result<(), Fail> {
    for k in 0..cases.len() {
        let (violation, values, walk, expected) = cases[k];
        let got = answer_on_three(alloc, CONTRADICTION, violation, values, walk)?;
        assert_answer(rt, k, got, expected);
    }
    Ok(())
}

#[test]
fn the_first_item_that_fails_is_named(rt: HostRuntime) -> Result<(), Fail> {
    assert_first_failures(&rt, rt.alloc(), THREE_ITEMS)
}

#[test]
fn what_is_withheld_is_passed_over(rt: HostRuntime) -> Result<(), Fail> {
    let alloc = rt.alloc();
    let place = u32::MAX;
    let mut items = Vec::new(alloc);
    items.push(Item::Afriat(AfriatPart::Wide { at: place }))?;
    items.push(Item::Homothetic(Homothetic::Withheld {
        steps: place,
        from: place,
        to: place,
    }))?;
    assert_answer(&rt, 0, answer(alloc, ALONE, items)?, None);
    assert_answer(&rt, 1, answer(alloc, ALONE, Vec::new(alloc))?, None);
    Ok(())
}
