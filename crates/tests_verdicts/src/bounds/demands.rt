//! Tests of demand at new prices: the supporting demand, the observations below, and the bounds of each good.
use crate::bounds::shared::{are_prices, push_list, push_number, push_numbers};
use rp_evidence::{Bound, DemandPart, GoodBounds, Point};
use rp_garp::GarpTest;
use rp_support::demand;
use rp_text::read_table;
use std::alloc::Global;
use std::process::Abort;
use std::test::Fail;
use tests_inputs::tables::{ALONE, APART, CONTRADICTION, MORE_AND_LESS};

/// The first is weakly preferred to the second alone, the second strictly to the third alone.
const IN_TURN: &str = "p_a,q_a,p_b,q_b\n1,2,1,2\n5,1,1,3\n9,0,1,7\n";

/// The numerators and the denominator of a supporting demand.
fn push_point(alloc: Global, text: &mut String, point: &Point) -> Result<(), Fail> {
    text.push_str(", inner")?;
    push_numbers(alloc, text, point.num.as_slice())?;
    text.push_str(" over")?;
    push_number(alloc, text, point.den)
}

/// The fraction of a shown bound.
fn push_bound(alloc: Global, text: &mut String, bound: &Bound) -> Result<(), Fail> {
    match bound {
        Bound::Shown { value, .. } => {
            let (num, den) = (value.num(), value.den());
            text.push_str(format!(in alloc; " {num}/{den}")?.as_str())?;
            Ok(())
        }
        Bound::Wide { step } => {
            text.push_str(" withheld at")?;
            push_number(alloc, text, u64::from(*step))
        }
    }
}

/// The bounds of a good.
fn push_good(alloc: Global, text: &mut String, good: &GoodBounds) -> Result<(), Fail> {
    text.push_str(", from")?;
    push_bound(alloc, text, &good.lower)?;
    text.push_str(" to")?;
    push_bound(alloc, text, &good.upper)
}

/// What is found, in one line.
fn told(alloc: Global, part: &DemandPart) -> Result<String, Fail> {
    let mut text = String::new(alloc);
    match part {
        DemandPart::Bounds {
            below,
            strict,
            inner,
            goods,
        } => {
            push_list(alloc, &mut text, "below", below.as_slice(), 0)?;
            push_list(alloc, &mut text, ", strict", strict.as_slice(), 0)?;
            push_point(alloc, &mut text, inner)?;
            for good in goods.as_slice() {
                push_good(alloc, &mut text, good)?;
            }
        }
        DemandPart::NoModel(walk) => {
            push_list(alloc, &mut text, "no model", walk.as_slice(), 0)?;
        }
    }
    Ok(text)
}

/// What is given where `m` is spent at the prices.
fn given(
    rt: &impl Abort,
    alloc: Global,
    file: &str,
    prices: &[u32],
    m: u64,
) -> Result<DemandPart, Fail> {
    let table = read_table(alloc, file.as_bytes())?;
    assert!(rt; !table.levelled());
    let tested = GarpTest::of(alloc, &table)?;
    assert!(rt; are_prices(prices));
    assert!(rt; prices.len() == table.goods() as usize);
    assert!(rt; 1 <= m && m <= 1_600_000_000_000_000);
    Ok(demand(alloc, &table, &tested, prices, m)?)
}

/// A table, new prices, what is spent at them, and what is found.
type DemandCase = (&'static str, &'static [u32], u64, &'static str);

/// Asserts what is found of each.
fn assert_demands(rt: &impl Abort, alloc: Global, cases: &[DemandCase]) -> Result<(), Fail> {
    for (file, prices, m, text) in cases {
        let part = given(rt, alloc, file, prices, *m)?;
        let found = told(alloc, &part)?;
        assert!(rt; found.as_str() == *text, "{text}");
    }
    Ok(())
}

const DEMANDS: [DemandCase; 11] = [
    (
        APART,
        &[1, 1],
        3,
        "below 0 1, strict, inner 2 1 over 1, from 1/1 to 2/1, from 1/1 to 2/1",
    ),
    (
        APART,
        &[1, 1],
        4,
        "below 0 1, strict 0 1, inner 3 1 over 1, from 0/1 to 4/1, from 0/1 to 4/1",
    ),
    (
        APART,
        &[1, 1],
        2,
        "below, strict, inner 2 0 over 1, from 0/1 to 2/1, from 0/1 to 2/1",
    ),
    (
        APART,
        &[2, 3],
        8,
        "below 0 1, strict 0, inner 5 2 over 2, from 1/1 to 4/1, from 0/1 to 2/1",
    ),
    (
        APART,
        &[3, 3],
        10,
        "below 0 1, strict 0 1, inner 7 3 over 3, from 2/3 to 8/3, from 2/3 to 8/3",
    ),
    (
        MORE_AND_LESS,
        &[1, 1],
        6,
        "below 1, strict 1, inner 4 2 over 1, from 0/1 to 6/1, from 0/1 to 6/1",
    ),
    (
        IN_TURN,
        &[1, 2],
        6,
        "below 0 1 2, strict 2, inner 2 2 over 1, from 2/1 to 6/1, from 0/1 to 2/1",
    ),
    (
        IN_TURN,
        &[1, 2],
        7,
        "below 0 1 2, strict 0 1 2, inner 3 2 over 1, from 1/1 to 7/1, from 0/1 to 3/1",
    ),
    (CONTRADICTION, &[1, 1], 3, "no model 0 1 0"),
    (
        ALONE,
        &[2],
        10,
        "below 0, strict 0, inner 10 over 2, from 5/1 to 5/1",
    ),
    (
        ALONE,
        &[2],
        3,
        "below, strict, inner 3 over 2, from 3/2 to 3/2",
    ),
];

/// The lists count observations from 0.
#[test]
fn demands_of_worked_tables(rt: HostRuntime) -> Result<(), Fail> {
    assert_demands(&rt, rt.alloc(), &DEMANDS)
}
