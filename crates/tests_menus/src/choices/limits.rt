//! Both sides of the limits of choices from budgets.
ghost use Rattle.std.specs.Prelude.{◌≤◌};

use crate::choices::lines::{ACCEPTED, CHECKED, RANDOM};
use std::alloc::{AllocError, Global};
use std::test::Fail;
use tests_inputs::choices::{choices_on_pairs, corners, fan, pairs};
use tests_support::{prints, refuses};

const RANDOM_PER_2: &[&str] = &["rp", "random", "b.csv", "c.csv", "--per", "2"];

const CHECKED_PER_2: &[&str] = &[
    "rp",
    "checkrandom",
    "b.csv",
    "c.csv",
    "v.json",
    "--per",
    "2",
];

/// A certificate with no item.
const EMPTY: &str = "{\"items\":[],\"kind\":\"random\",\"version\":1}";

/// The words over budgets, choices and a certificate print so.
fn prints_over(
    alloc: Global,
    words: &[&str],
    budgets: &str,
    choices: &str,
    certificate: &str,
    text: &str,
) -> Result<(), Fail> {
    let files = &[
        ("b.csv", budgets),
        ("c.csv", choices),
        ("v.json", certificate),
    ];
    prints(alloc, words, files, text)
}

/// The words over a fan, choices of each good alone, and this certificate print so.
fn prints_over_fan(
    alloc: Global,
    words: &[&str],
    n: u32,
    certificate: &str,
    text: &str,
) -> Result<(), Fail>
    requires { n ≤ 48 }
{
    let (budgets, choices) = (fan(alloc, n)?, corners(alloc, n, true)?);
    let (budgets, choices) = (budgets.as_str(), choices.as_str());
    prints_over(alloc, words, budgets, choices, certificate, text)
}

const OF_TWENTY: &str = "budgets 20 patches 40 types 21 total 2\nrandom mixture over 1\n\
        part 1 3 5 7 9 11 13 15 17 19 21 23 25 27 29 31 33 35 37 39 weight 1\n\
        part 2 4 6 8 10 12 14 16 18 20 22 24 26 28 30 32 34 36 38 40 weight 1\n";

const AS_JSON_OF_TWENTY: &str = "{\"items\":[{\"den\":\"1\",\"item\":\"random\",\"parts\":[\
        [[1,3,5,7,9,11,13,15,17,19,21,23,25,27,29,31,33,35,37,39],\"1\"],\
        [[2,4,6,8,10,12,14,16,18,20,22,24,26,28,30,32,34,36,38,40],\"1\"]],\
        \"total\":\"2\"}],\"kind\":\"random\",\"version\":1}\n";

/// Of the 2^20 combinations on a fan those are rational that take the first good up to some budget and the second
/// from there on. Half of the choices are the first good alone, and half the second.
#[test]
fn twenty_budgets(rt: HostRuntime) -> Result<(), Fail> {
    let alloc = rt.alloc();
    let json = &["rp", "random", "b.csv", "c.csv", "--json"];
    prints_over_fan(alloc, RANDOM, 20, "", OF_TWENTY)?;
    prints_over_fan(alloc, json, 20, "", AS_JSON_OF_TWENTY)?;
    prints_over_fan(alloc, CHECKED, 20, AS_JSON_OF_TWENTY, ACCEPTED)
}

/// The words over a fan that is too great, and choices of each good alone, are refused so.
fn refuses_fan(alloc: Global, words: &[&str], n: u32, once: bool, line: &str) -> Result<(), Fail>
    requires { n ≤ 48 }
{
    let (budgets, choices) = (fan(alloc, n)?, corners(alloc, n, once)?);
    let files = &[
        ("b.csv", budgets.as_str()),
        ("c.csv", choices.as_str()),
        ("v.json", EMPTY),
    ];
    refuses(alloc, words, files, line)
}

/// Of what a fan is refused for the patches come first, then the unit that is needed, and then the combinations.
#[test]
fn fans_past_the_limits(rt: HostRuntime) -> Result<(), Fail> {
    for (words, n, once, line) in [
        (RANDOM, 21, true, "rp: TooManyCombinations\n"),
        (CHECKED, 21, true, "rp: TooManyCombinations\n"),
        (RANDOM, 24, true, "rp: TooManyCombinations\n"),
        (RANDOM, 25, true, "rp: TooManyPatches budget 25\n"),
        (CHECKED, 25, true, "rp: TooManyPatches budget 25\n"),
        (RANDOM, 26, true, "rp: TooManyPatches budget 25\n"),
        // 99,990 choices on the first budget and 99,989 on the second
        (RANDOM, 21, false, "rp: NeedUnit budget 2\n"),
        (CHECKED, 21, false, "rp: NeedUnit budget 2\n"),
        (RANDOM, 25, false, "rp: TooManyPatches budget 25\n"),
        (RANDOM_PER_2, 21, false, "rp: TooManyCombinations\n"),
        (CHECKED_PER_2, 21, false, "rp: TooManyCombinations\n"),
        (CHECKED_PER_2, 25, true, "rp: TooManyPatches budget 25\n"),
    ] {
        refuses_fan(rt.alloc(), words, n, once, line)?;
    }
    Ok(())
}

/// The words over so many pairs, choices on them, and this certificate print so.
fn prints_over_pairs(
    alloc: Global,
    words: &[&str],
    n: u32,
    certificate: &str,
    text: &str,
) -> Result<(), Fail>
    requires { n ≤ 8 }
{
    let (budgets, choices) = (pairs(alloc, n)?, choices_on_pairs(alloc, n)?);
    let (budgets, choices) = (budgets.as_str(), choices.as_str());
    prints_over(alloc, words, budgets, choices, certificate, text)
}

const OF_SEVEN: &str = "budgets 14 patches 28 types 2187 total 4\nrandom violated share 3/4\n\
        weights 0 0 0 0 0 0 0 0 0 0 0 0 0 0 0 0 0 0 0 0 0 0 0 0 1 0 1 0 over 1\n\
        part 1 4 6 7 10 11 14 15 18 19 22 23 26 27 weight 1\n\
        part 2 3 5 8 10 11 14 15 18 19 22 23 26 27 weight 1\n\
        part 2 3 6 7 9 12 13 16 17 20 21 24 25 28 weight 1\n";

const CERTIFICATE_OF_SEVEN: &str = "{\"items\":[{\"den\":\"1\",\"item\":\"random\",\"parts\":[\
        [[1,4,6,7,10,11,14,15,18,19,22,23,26,27],\"1\"],\
        [[2,3,5,8,10,11,14,15,18,19,22,23,26,27],\"1\"],\
        [[2,3,6,7,9,12,13,16,17,20,21,24,25,28],\"1\"]],\"total\":\"4\",\"weights\":[\
        \"0\",\"0\",\"0\",\"0\",\"0\",\"0\",\"0\",\"0\",\"0\",\"0\",\"0\",\"0\",\"0\",\"0\",\
        \"0\",\"0\",\"0\",\"0\",\"0\",\"0\",\"0\",\"0\",\"0\",\"0\",\"1\",\"0\",\"1\",\"0\"]}],\
        \"kind\":\"random\",\"version\":1}\n";

/// Seven pairs have 3^7 rational types. Each takes a patch of the last pair that lies above the other budget, and
/// those have three of the four units. The test takes seconds as it is built, and minutes with the checks of `rt
/// try`.
#[test]
fn seven_pairs(rt: HostRuntime) -> Result<(), Fail> {
    prints_over_pairs(rt.alloc(), RANDOM, 7, "", OF_SEVEN)?;
    prints_over_pairs(rt.alloc(), CHECKED, 7, CERTIFICATE_OF_SEVEN, ACCEPTED)
}

/// Eight pairs have more rational types than the limit.
#[test]
fn eight_pairs(rt: HostRuntime) -> Result<(), Fail> {
    let (budgets, choices) = (pairs(rt.alloc(), 8)?, choices_on_pairs(rt.alloc(), 8)?);
    let files = &[
        ("b.csv", budgets.as_str()),
        ("c.csv", choices.as_str()),
        ("v.json", EMPTY),
    ];
    for words in [RANDOM, CHECKED] {
        refuses(rt.alloc(), words, files, "rp: TooManyTypes\n")?;
    }
    Ok(())
}

/// On each budget of each pair a choice above the other budget, and one where the two meet.
fn choices_that_meet(alloc: Global, n: u32) -> Result<String, AllocError>
    requires { n ≤ 8 }
{
    let mut text = String::from_str(alloc, "budget,q_a,q_b,n\n")?;
    for i in 0..n {
        let (a, b) = (2 * i + 1, 2 * i + 2);
        text.push_str(format!(in alloc; "{a},2,1,1\n{a},1,1,1\n{b},1,2,1\n{b},1,1,1\n")?.as_str())?;
    }
    Ok(text)
}

const CERTIFICATE_OF_SIX: &str = "{\"items\":[{\"den\":\"1\",\"item\":\"random\",\"parts\":[\
        [[1,3,5,7,9,11,13,15,17,19,21,23],\"1\"]],\"total\":\"1\"}],\"kind\":\"random\",\"version\":1}\n";

const OF_SIX: &str =
    "budgets 12 patches 24 types 4096 total 1\napportioned per 1\nrandom mixture over 1\n\
        part 1 3 5 7 9 11 13 15 17 19 21 23 weight 1\n";

/// Each pair with choices that meet has four rational types, so six have 4^6. Of one unit on each budget the first
/// patch gets all.
#[test]
fn as_many_types_as_the_limit(rt: HostRuntime) -> Result<(), Fail> {
    let (budgets, choices) = (pairs(rt.alloc(), 6)?, choices_that_meet(rt.alloc(), 6)?);
    let files = &[
        ("b.csv", budgets.as_str()),
        ("c.csv", choices.as_str()),
        ("v.json", CERTIFICATE_OF_SIX),
    ];
    let random = &["rp", "random", "b.csv", "c.csv", "--per", "1"];
    prints(rt.alloc(), random, files, OF_SIX)?;
    let checked = &[
        "rp",
        "checkrandom",
        "b.csv",
        "c.csv",
        "v.json",
        "--per",
        "1",
    ];
    prints(rt.alloc(), checked, files, ACCEPTED)
}

/// With one more choice, below the other budget, there are 4^5 * 5.
#[test]
fn more_types_than_the_limit(rt: HostRuntime) -> Result<(), Fail> {
    let (budgets, mut choices) = (pairs(rt.alloc(), 6)?, choices_that_meet(rt.alloc(), 6)?);
    choices.push_str("12,2,0,1\n")?;
    let files = &[
        ("b.csv", budgets.as_str()),
        ("c.csv", choices.as_str()),
        ("v.json", CERTIFICATE_OF_SIX),
    ];
    for words in [RANDOM, CHECKED] {
        refuses(rt.alloc(), words, files, "rp: TooManyTypes\n")?;
    }
    Ok(())
}
