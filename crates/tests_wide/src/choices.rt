//! Tests of the wider edition on choices whose rational types are not listed, and on those that `rp` answers.
ghost use Rattle.std.specs.Prelude.{◌≤◌};

use crate::runs::{are_alike, run_wide_over};
use std::alloc::{AllocError, Global};
use std::test::Fail;
use tests_inputs::choices::{choices_on_pairs, corners, fan, pairs};

const RANDOM: &[&str] = &["rp", "random", "b.csv", "c.csv"];

const RANDOM_AS_JSON: &[&str] = &["rp", "random", "b.csv", "c.csv", "--json"];

const CHECKED: &[&str] = &["rp", "checkrandom", "b.csv", "c.csv", "v.json"];

const PATCHES: &[&str] = &["rp", "patches", "b.csv", "c.csv"];

/// Every second patch of so many budgets with two each, from this one on.
fn every_second(alloc: Global, n: u32, first: u32, between: &str) -> Result<String, AllocError>
    requires budgets { n ≤ 48 }
    requires patch { first ≤ 2 }
{
    let mut text = String::new(alloc);
    for j in 0..n {
        if j > 0 {
            text.push_str(between)?;
        }
        let patch = first + 2 * j;
        text.push_str(format!(in alloc; "{patch}")?.as_str())?;
    }
    Ok(text)
}

/// The report of a fan of so many budgets with choices of each good alone: half of the choices are the first good alone,
/// and half the second, and no other mixture makes them.
fn of_fan(alloc: Global, n: u32) -> Result<String, AllocError>
    requires { n ≤ 48 }
{
    let patches = 2 * n;
    let mut text = format!(in alloc; "budgets {n} patches {patches} types unlisted total 2\n")?;
    text.push_str("random mixture over 1\n")?;
    for first in [1, 2] {
        let part = every_second(alloc, n, first, " ")?;
        let part = part.as_str();
        text.push_str(format!(in alloc; "part {part} weight 1\n")?.as_str())?;
    }
    Ok(text)
}

/// The certificate of this.
fn certificate_of_fan(alloc: Global, n: u32) -> Result<String, AllocError>
    requires { n ≤ 48 }
{
    let (one, other) = (
        every_second(alloc, n, 1, ",")?,
        every_second(alloc, n, 2, ",")?,
    );
    let (one, other) = (one.as_str(), other.as_str());
    let mut text = String::from_str(
        alloc,
        "{\"items\":[{\"den\":\"1\",\"item\":\"random\",\"parts\":[[[",
    )?;
    text.push_str(one)?;
    text.push_str("],\"1\"],[[")?;
    text.push_str(other)?;
    text.push_str("],\"1\"]],\"total\":\"2\"}],\"kind\":\"random\",\"version\":1}\n")?;
    Ok(text)
}

/// What the wider edition writes over these budgets, choices and certificate.
fn written_over(
    alloc: Global,
    words: &[&str],
    budgets: &str,
    choices: &str,
    certificate: &str,
) -> Result<String, Fail> {
    let files = &[
        ("b.csv", budgets),
        ("c.csv", choices),
        ("v.json", certificate),
    ];
    Ok(run_wide_over(alloc, words, files)?.out)
}

/// What the wider edition writes over a fan, choices of each good alone, and this certificate.
fn over_fan(alloc: Global, words: &[&str], n: u32, certificate: &str) -> Result<String, Fail>
    requires { n ≤ 48 }
{
    let (budgets, choices) = (fan(alloc, n)?, corners(alloc, n, true)?);
    let (budgets, choices) = (budgets.as_str(), choices.as_str());
    written_over(alloc, words, budgets, choices, certificate)
}

/// 21 budgets have 2^21 combinations, 25 have 50 patches, and 48 have 96.
#[test]
fn fans_past_the_limits_of_lists(rt: HostRuntime) -> Result<(), Fail> {
    let alloc = rt.alloc();
    for n in [21, 25, 48] {
        let written = over_fan(alloc, RANDOM, n, "")?;
        assert!(rt; written.as_str() == of_fan(alloc, n)?.as_str());
        let certificate = certificate_of_fan(alloc, n)?;
        let written = over_fan(alloc, RANDOM_AS_JSON, n, "")?;
        assert!(rt; written.as_str() == certificate.as_str());
        let written = over_fan(alloc, CHECKED, n, certificate.as_str())?;
        assert!(rt; written.as_str() == "accepted items 1 withheld 0\n");
    }
    Ok(())
}

/// Of a fan that `rp` refuses the patches are told too.
#[test]
fn patches_past_the_limit_of_lists(rt: HostRuntime) -> Result<(), Fail> {
    let written = over_fan(rt.alloc(), PATCHES, 25, "")?;
    assert!(rt;
        written.as_str().starts_with(
            "budgets 25 patches 50 total 2\npatch 1 budget 1 units 1 sides on"
        )
    );
    Ok(())
}

/// Eight pairs have 3^8 rational types. Each takes a patch of each pair that lies above the other budget, and those
/// have three of the four units.
#[test]
fn eight_pairs(rt: HostRuntime) -> Result<(), Fail> {
    let alloc = rt.alloc();
    let (budgets, choices) = (pairs(alloc, 8)?, choices_on_pairs(alloc, 8)?);
    let files = &[("b.csv", budgets.as_str()), ("c.csv", choices.as_str())];
    let written = run_wide_over(alloc, RANDOM, files)?;
    assert!(rt;
        written.out.as_str().starts_with(
            "budgets 16 patches 32 types unlisted total 4\nrandom violated share 3/4\n"
        )
    );
    let certificate = run_wide_over(alloc, RANDOM_AS_JSON, files)?;
    let files = &[
        ("b.csv", budgets.as_str()),
        ("c.csv", choices.as_str()),
        ("v.json", certificate.out.as_str()),
    ];
    let written = run_wide_over(alloc, CHECKED, files)?;
    assert!(rt; written.out.as_str() == "accepted items 1 withheld 0\n");
    Ok(())
}

/// What `rp` answers or refuses for another reason than the limits of lists both editions tell alike.
#[test]
fn choices_within_the_limits_of_lists(rt: HostRuntime) -> Result<(), Fail> {
    let alloc = rt.alloc();
    let certificate = certificate_of_fan(alloc, 20)?;
    for (n, once) in [(20, true), (21, false)] {
        let (budgets, choices) = (fan(alloc, n)?, corners(alloc, n, once)?);
        let files = &[
            ("b.csv", budgets.as_str()),
            ("c.csv", choices.as_str()),
            ("v.json", certificate.as_str()),
        ];
        for words in [RANDOM, RANDOM_AS_JSON, CHECKED, PATCHES] {
            assert!(rt; are_alike(alloc, words, files)?);
        }
    }
    Ok(())
}
