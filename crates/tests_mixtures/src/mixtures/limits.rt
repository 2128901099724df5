//! Both sides of each limit, as near to it as budgets and choices come.
use crate::mixtures::told::{Ask, assert_each, assert_told};
use std::alloc::{AllocError, Global};
use std::process::Abort;
use std::test::Fail;
use tests_inputs::choices::{COPRIME, CROSSED};

/// So many budgets with prices (j, n + 1 - j) and this income. They cross at one point, (1, 1) where the income is n +
/// 1.
fn fan(alloc: Global, n: u32, income: u32) -> Result<String, AllocError> {
    let mut text = String::from_str(alloc, "p_a,p_b,w\n")?;
    for j in 0..n {
        let (first, second) = (u64::from(j) + 1, n - j);
        writeln!(text, "{first},{second},{income}")?;
    }
    Ok(text)
}

/// One choice of each good alone on each of so many budgets, and on the first of them one of both.
fn choices_on(alloc: Global, n: u32, of_both: u32) -> Result<String, AllocError> {
    let mut text = String::from_str(alloc, "budget,q_a,q_b,n\n")?;
    for j in 0..n {
        let budget = u64::from(j) + 1;
        writeln!(text, "{budget},1,0,1\n{budget},0,1,1")?;
        if j < of_both {
            writeln!(text, "{budget},1,1,1")?;
        }
    }
    Ok(text)
}

/// Asserts what choices from so many crossed budgets come to, on the first of which both goods are chosen.
fn assert_fan(
    rt: &impl Abort,
    alloc: Global,
    ask: Ask,
    (n, income, of_both): (u32, u32, u32),
    wanted: &str,
) -> Result<(), Fail> {
    let budgets = fan(alloc, n, income)?;
    let choices = choices_on(alloc, n, of_both)?;
    assert_told(
        rt,
        alloc,
        ask,
        budgets.as_str(),
        choices.as_str(),
        None,
        wanted,
    )
}

/// 48 patches are taken, and one more is not.
#[test]
fn patches_at_their_limit(rt: HostRuntime) -> Result<(), Fail> {
    assert_fan(&rt, rt.alloc(), Ask::PatchCount, (16, 17, 15), "47 patches")?;
    assert_fan(&rt, rt.alloc(), Ask::PatchCount, (16, 17, 16), "48 patches")?;
    assert_fan(&rt, rt.alloc(), Ask::PatchCount, (24, 25, 0), "48 patches")?;
    assert_fan(
        &rt,
        rt.alloc(),
        Ask::PatchCount,
        (24, 25, 1),
        "TooManyPatches 24",
    )
}

/// A fan of 20 budgets has 2^20 combinations; with one more there are too many, with 25 too many patches.
#[test]
fn patches_and_combinations_up_to_their_limits(rt: HostRuntime) -> Result<(), Fail> {
    assert_fan(
        &rt,
        rt.alloc(),
        Ask::Counts,
        (20, 1, 0),
        "40 patches, 21 types",
    )?;
    assert_fan(
        &rt,
        rt.alloc(),
        Ask::Counts,
        (21, 1, 0),
        "TooManyCombinations",
    )?;
    assert_fan(
        &rt,
        rt.alloc(),
        Ask::Patches,
        (25, 1, 0),
        "TooManyPatches 25",
    )?;
    assert_fan(
        &rt,
        rt.alloc(),
        Ask::Counts,
        (24, 1, 0),
        "TooManyCombinations",
    )
}

/// Asserts what choices from 14 budgets come to, of which the last lies outside of the point where the others cross,
/// which they cut into several pieces.
fn assert_outside(rt: &impl Abort, alloc: Global, ask: Ask, wanted: &str) -> Result<(), Fail> {
    let mut budgets = fan(alloc, 13, 14)?;
    budgets.push_str("1,1,3\n")?;
    let mut choices = choices_on(alloc, 13, 8)?;
    choices.push_str("14,0,1,1\n14,1,5,1\n14,1,1,1\n14,3,1,1\n14,1,0,1\n")?;
    assert_told(
        rt,
        alloc,
        ask,
        budgets.as_str(),
        choices.as_str(),
        None,
        wanted,
    )
}

/// 2^20 ways to take a patch of each budget are tried. The next number that is a product of at most 48 patches is 2^5
/// * 3^8 * 5.
#[test]
fn combinations_at_their_limit(rt: HostRuntime) -> Result<(), Fail> {
    assert_fan(
        &rt,
        rt.alloc(),
        Ask::Counts,
        (20, 21, 0),
        "40 patches, 21 types",
    )?;
    assert_outside(&rt, rt.alloc(), Ask::PatchCount, "39 patches")?;
    assert_outside(&rt, rt.alloc(), Ask::Counts, "TooManyCombinations")
}

/// So many pairs of crossed budgets, each with ten times the income of the one before.
fn pairs(alloc: Global, n: u32) -> Result<String, AllocError> {
    let mut text = String::from_str(alloc, "p_a,p_b,w\n")?;
    let mut income = String::from_str(alloc, "4")?;
    for _ in 0..n {
        writeln!(text, "1,2,{income}\n2,1,{income}")?;
        income.push_str("0")?;
    }
    Ok(text)
}

/// Bundles with their counts: two that are chosen on the first budget of each pair, and two on the second.
type Chosen = [&'static str; 4];

const APART: Chosen = ["2,1,1", "0,2,3", "1,2,2", "2,0,2"];

/// A choice above the other budget, and one where the two meet.
const MEETING: Chosen = ["2,1,1", "1,1,1", "1,2,1", "1,1,1"];

/// Four choices on each of so many pairs.
fn choices_on_pairs(alloc: Global, n: u32, chosen: Chosen) -> Result<String, AllocError> {
    let mut text = String::from_str(alloc, "budget,q_a,q_b,n\n")?;
    let [a, b, c, d] = chosen;
    for i in 0..n {
        let (one, two) = (2 * u64::from(i) + 1, 2 * u64::from(i) + 2);
        writeln!(text, "{one},{a}\n{one},{b}\n{two},{c}\n{two},{d}")?;
    }
    Ok(text)
}

/// Asserts how many patches and types there are of the same choices on each pair, and more.
fn assert_pairs(
    rt: &impl Abort,
    alloc: Global,
    n: u32,
    chosen: Chosen,
    more: &str,
    wanted: &str,
) -> Result<(), Fail> {
    let budgets = pairs(alloc, n)?;
    let mut choices = choices_on_pairs(alloc, n, chosen)?;
    choices.push_str(more)?;
    assert_told(
        rt,
        alloc,
        Ask::Counts,
        budgets.as_str(),
        choices.as_str(),
        None,
        wanted,
    )
}

/// Seven pairs have 3^7 rational types; eight have more than the limit.
#[test]
fn types_up_to_their_limit(rt: HostRuntime) -> Result<(), Fail> {
    assert_pairs(&rt, rt.alloc(), 7, APART, "", "28 patches, 2187 types")?;
    assert_pairs(&rt, rt.alloc(), 8, APART, "", "TooManyTypes")
}

/// How many pairs, what is chosen besides, and the counts.
const MEETS: &[(u32, &str, &str)] = &[
    (1, "", "4 patches, 4 types"),
    (1, "2,2,0,1\n", "5 patches, 5 types"),
    (1, "1,0,2,1\n2,2,0,1\n", "6 patches, 6 types"),
    (6, "", "24 patches, 4096 types"),
    (
        5,
        "4,2,0,1\n5,0,2,1\n6,2,0,1\n7,0,2,1\n8,2,0,1\n9,0,2,1\n10,2,0,1\n",
        "TooManyTypes",
    ),
    (6, "12,2,0,1\n", "TooManyTypes"),
];

/// A pair with choices that meet has four rational types, five with a choice below on one side, and six with one on
/// both. So there are 4^6, and past the limit 4 * 5 * 6^3 and 4^5 * 5.
#[test]
fn as_many_types_as_the_limit_and_more(rt: HostRuntime) -> Result<(), Fail> {
    for (n, more, wanted) in MEETS {
        assert_pairs(&rt, rt.alloc(), *n, MEETING, more, wanted)?;
    }
    Ok(())
}

const FIVE_BUDGETS: &str = "p_a,p_b,p_c,w\n5,4,1,16\n4,4,4,13\n1,4,4,15\n3,5,2,11\n1,2,4,8\n";

const MANY_TYPES: &str = "budget,q_a,q_b,q_c,n\n\
    1,3,0,1,1\n1,4,0,1,1\n1,0,1,0,1\n1,2,5,2,1\n1,0,0,1,1\n1,1,1,0,1\n1,7,0,3,1\n1,1,0,1,1\n\
    2,0,0,1,1\n2,6,4,3,1\n2,0,1,0,1\n2,0,1,1,1\n2,1,0,0,1\n2,2,7,4,1\n2,0,6,7,1\n\
    3,0,1,1,1\n3,1,4,0,1\n3,1,0,0,1\n3,2,5,2,1\n3,2,7,0,1\n\
    4,1,0,0,1\n4,1,1,1,1\n4,0,1,2,1\n4,0,0,1,1\n4,6,5,6,1\n4,6,4,3,1\n4,3,0,1,1\n4,0,6,7,1\n4,0,1,0,1\n\
    5,4,4,5,1\n5,1,0,0,1\n5,7,0,3,1\n5,2,7,0,1\n5,1,4,0,1\n5,0,1,0,1\n";

/// Asserts how many patches and types there are of these choices and more.
fn assert_many(rt: &impl Abort, alloc: Global, more: &str, wanted: &str) -> Result<(), Fail> {
    let mut choices = String::from_str(alloc, MANY_TYPES)?;
    choices.push_str(more)?;
    assert_told(
        rt,
        alloc,
        Ask::Counts,
        FIVE_BUDGETS,
        choices.as_str(),
        None,
        wanted,
    )
}

/// Five budgets of three goods, and choices with 4,091 rational types by another computation. With one choice more
/// there are 4,097.
#[test]
fn types_past_their_limit_by_one(rt: HostRuntime) -> Result<(), Fail> {
    assert_many(&rt, rt.alloc(), "", "35 patches, 4091 types")?;
    assert_many(&rt, rt.alloc(), "1,1,0,0,1\n", "TooManyTypes")
}

/// A total of 1,000,000,000, of 2^9 and 5^9, is taken, and the next whole number, 19019 * 52579, is not.
const TOTALS: &str = "\
budget,q_a,q_b,n|1,2,1,512|2,1,2,1953125| => 1:0+ 1000000000, 2:+0 1000000000, total 1000000000
budget,q_a,q_b,n|1,2,1,19019|2,1,2,52579| => NeedUnit 2
budget,q_a,q_b,n|1,2,1,512|2,1,2,1953127| => NeedUnit 2
budget,q_a,q_b,n|1,2,1,99991|2,1,2,99989| => NeedUnit 2
";

/// The common total is up to the limit, or a unit has to be asked for.
#[test]
fn totals_at_their_limit(rt: HostRuntime) -> Result<(), Fail> {
    assert_each(&rt, rt.alloc(), Ask::Patches, CROSSED, TOTALS)?;
    let told = "1:0+ 100, 2:+0 100, total 100";
    assert_told(
        &rt,
        rt.alloc(),
        Ask::Patches,
        CROSSED,
        COPRIME,
        Some(100),
        told,
    )?;
    let past = "budget,q_a,q_b,n\n1,2,1,19019\n2,1,2,52579\n";
    let told = "1:0+ 1000000000, 2:+0 1000000000, total 1000000000";
    assert_told(
        &rt,
        rt.alloc(),
        Ask::Patches,
        CROSSED,
        past,
        Some(1_000_000_000),
        told,
    )
}
