//! Tests of the bounds on the money metric at new prices, with the pair of the lower one.
use crate::bounds::shared::{are_prices, push_list, push_number, push_numbers};
use rp_evidence::{Bound, WelfarePart};
use rp_farkas::{Entry, Pair};
use rp_garp::GarpTest;
use rp_num::Frac;
use rp_text::read_table;
use rp_welfare::welfare;
use std::alloc::Global;
use std::process::Abort;
use std::test::Fail;
use tests_inputs::tables::{ALONE, CONTRADICTION, EQUAL, MORE_AND_LESS};

const TWO_GOODS_ALONE: &str = "p_a,q_a,p_b,q_b\n2,1,3,1\n";

/// The lines of what was spent at the first and at the second cross where the second chose.
const CROSSING: &str = "p_a,q_a,p_b,q_b\n1,2,1,2\n1,3,3,1\n";

/// After two pivots an entry of the objective row is about 10^21.
const STEEP: &str =
    "p_a,q_a,p_b,q_b,p_c,q_c\n9999999,2,1,2,1,2\n1,1,9999991,1,1,1\n1,1,1,1,9999973,1\n";

/// The fraction as text.
fn fraction(alloc: Global, value: Frac) -> Result<String, Fail> {
    let text = if value.den() == 1 {
        format!(in alloc; "{}", value.num())?
    } else {
        format!(in alloc; "{}/{}", value.num(), value.den())?
    };
    Ok(text)
}

/// The columns from 1 with their values, with a space before each.
fn push_entries(alloc: Global, text: &mut String, entries: &[Entry]) -> Result<(), Fail> {
    for entry in entries {
        let column = u64::from(entry.at) + 1;
        text.push_str(format!(in alloc; " {}:{}", column, entry.value)?.as_str())?;
    }
    Ok(())
}

/// The prices x, the entries y and the denominator of a pair.
fn push_pair(alloc: Global, text: &mut String, pair: &Pair) -> Result<(), Fail> {
    text.push_str(" x")?;
    push_numbers(alloc, text, pair.x.as_slice())?;
    text.push_str(" y")?;
    push_entries(alloc, text, pair.y.as_slice())?;
    text.push_str(" over")?;
    push_number(alloc, text, pair.den)
}

/// The lower bound as text, with columns from 1.
fn lower_text(alloc: Global, lower: &Bound) -> Result<String, Fail> {
    match lower {
        Bound::Shown { value, pair } => {
            let mut text = fraction(alloc, *value)?;
            push_pair(alloc, &mut text, pair)?;
            Ok(text)
        }
        Bound::Wide { step } => Ok(format!(in alloc; "withheld at step {step}")?),
    }
}

/// What is found, in one line, with observations from 1.
fn told(alloc: Global, part: &WelfarePart) -> Result<String, Fail> {
    match part {
        WelfarePart::Bounds { upper, at, lower } => {
            let at = u64::from(*at) + 1;
            let lower = lower_text(alloc, lower)?;
            let lower = lower.as_str();
            Ok(format!(in alloc; "upper {upper} at {at} lower {lower}")?)
        }
        WelfarePart::NoModel(walk) => {
            let mut text = String::new(alloc);
            push_list(alloc, &mut text, "violation", walk.as_slice(), 1)?;
            Ok(text)
        }
    }
}

/// What is given for observation `t` of the table, with observations from 1.
fn given(
    rt: &impl Abort,
    alloc: Global,
    file: &str,
    prices: &[u32],
    t: u32,
) -> Result<WelfarePart, Fail> {
    let table = read_table(alloc, file.as_bytes())?;
    assert!(rt; !table.levelled());
    let tested = GarpTest::of(alloc, &table)?;
    assert!(rt; are_prices(prices));
    assert!(rt; prices.len() == table.goods() as usize);
    assert!(rt; t >= 1 && t <= table.n(), "no such observation");
    Ok(welfare(alloc, &table, &tested, prices, t - 1)?)
}

/// A table, new prices, an observation from 1, and what is found.
type WelfareCase = (&'static str, &'static [u32], u32, &'static str);

/// Asserts what is found of each.
fn assert_bounds(rt: &impl Abort, alloc: Global, cases: &[WelfareCase]) -> Result<(), Fail> {
    for (file, prices, t, text) in cases {
        let part = given(rt, alloc, file, prices, *t)?;
        let found = told(alloc, &part)?;
        assert!(rt; found.as_str() == *text, "{text}");
    }
    Ok(())
}

const BOUNDS: [WelfareCase; 11] = [
    (
        MORE_AND_LESS,
        &[1, 2],
        1,
        "upper 12 at 1 lower 8 x 8 0 y 1:1 over 1",
    ),
    (
        MORE_AND_LESS,
        &[1, 2],
        2,
        "upper 6 at 2 lower 4 x 4 0 y 1:1 over 1",
    ),
    // the own prices: both bounds are what was spent
    (
        MORE_AND_LESS,
        &[1, 1],
        1,
        "upper 8 at 1 lower 8 x 0 8 y 1:1 over 1",
    ),
    (
        MORE_AND_LESS,
        &[1, 1],
        2,
        "upper 4 at 2 lower 4 x 0 4 y 1:1 over 1",
    ),
    (CONTRADICTION, &[1, 2], 1, "violation 1 2 1"),
    (CONTRADICTION, &[1, 2], 2, "violation 1 2 1"),
    // one observation, and a bound between whole numbers
    (
        TWO_GOODS_ALONE,
        &[1, 1],
        1,
        "upper 2 at 1 lower 5/3 x 0 5 y 1:1 over 3",
    ),
    // the first reaches the other, whose line lifts its lower bound
    (
        CROSSING,
        &[1, 2],
        1,
        "upper 6 at 1 lower 5 x 6 2 y 1:1 2:1 over 2",
    ),
    (
        CROSSING,
        &[1, 2],
        2,
        "upper 5 at 2 lower 4 x 0 6 y 1:2 over 3",
    ),
    // two that reach each other, at one cost: the upper bound is the first's
    (EQUAL, &[1, 1], 1, "upper 4 at 1 lower 4 x 0 4 y 1:1 over 1"),
    (EQUAL, &[1, 1], 2, "upper 4 at 1 lower 4 x 0 4 y 1:1 over 1"),
];

#[test]
fn bounds_on_worked_tables(rt: HostRuntime) -> Result<(), Fail> {
    assert_bounds(&rt, rt.alloc(), &BOUNDS)
}

const OF_OTHER_SIZES: [WelfareCase; 2] = [
    (ALONE, &[5], 1, "upper 10 at 1 lower 10 x 6 y 1:5 over 3"),
    (
        STEEP,
        &[1, 1, 1],
        1,
        "upper 6 at 1 lower withheld at step 2",
    ),
];

#[test]
fn bounds_with_one_good_and_with_three(rt: HostRuntime) -> Result<(), Fail> {
    assert_bounds(&rt, rt.alloc(), &OF_OTHER_SIZES)
}
