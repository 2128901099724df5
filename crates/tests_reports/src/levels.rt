//! Reports on tables with levels.
use std::test::Fail;
use tests_inputs::tables::{AT_799, AT_800, MORE_AND_LESS_AT_ALL, OF_AT_799};
use tests_support::prints;

/// Words over a table on which the axiom holds by its levels, and what they print.
const BY_LEVELS: &[(&[&str], &str)] = &[
    (
        &["rp", "analyse", "t.csv"],
        "observations 2 goods 2 places 0 0\nlevels 799 1000\ngarp holds\nranks 1 2\nafriat model\nutility -1000 0\nlambda 200 1\nefficiency 4/5 attained yes\nbelow 1 1\nabove 1 2 1\nat ranks 2 2\nhomothetic violated\nstart 1\ncycle 1 2 1\nquasilinear violated\ncycle 1 2 1\n",
    ),
    (&["rp", "certify", "t.csv"], OF_AT_799),
    (
        &["rp", "utility", "t.csv", "b.csv"],
        "observations 2 goods 2 places 0 0\nlevels 799 1000\ngarp holds\nranks 1 2\nafriat model\nutility -1000 0\nlambda 200 1\nat 1 value -1000\nat 2 value 0\n",
    ),
];

#[test]
fn verdicts_and_utilities_by_levels(rt: HostRuntime) -> Result<(), Fail> {
    let files = &[("t.csv", AT_799), ("b.csv", "q_a,q_b\n1,2\n2,1\n")];
    for (words, out) in BY_LEVELS {
        prints(rt.alloc(), words, files, out)?;
    }
    Ok(())
}

/// An equality at the first level makes the cycle a violation again, so there are no numbers and no utilities. Levels
/// that take nothing away leave the verdicts as they are, and utilities 1,000 times as great.
const UNCHANGED: &[(&[&str], &str, &str)] = &[
    (
        &["rp", "utility", "t.csv", "b.csv"],
        AT_800,
        "observations 2 goods 2 places 0 0\nlevels 800 1000\ngarp violated\ncycle 1 2 1\nafriat none\ncycle 1 2 1\nat 1 none\n",
    ),
    (
        &["rp", "analyse", "t.csv"],
        AT_800,
        "observations 2 goods 2 places 0 0\nlevels 800 1000\ngarp violated\ncycle 1 2 1\nafriat none\ncycle 1 2 1\nefficiency 4/5 attained yes\nbelow 1 1\nabove 1 2 1\nat ranks 2 2\nhomothetic violated\nstart 1\ncycle 1 2 1\nquasilinear violated\ncycle 1 2 1\n",
    ),
    (
        &["rp", "utility", "t.csv", "b.csv"],
        MORE_AND_LESS_AT_ALL,
        "observations 2 goods 2 places 0 0\nlevels 1000 1000\ngarp holds\nranks 2 1\nafriat model\nutility 0 -4000\nlambda 1 1\nat 1 value -5000\n",
    ),
];

#[test]
fn levels_that_change_no_verdict(rt: HostRuntime) -> Result<(), Fail> {
    for (words, table, out) in UNCHANGED {
        prints(
            rt.alloc(),
            words,
            &[("t.csv", table), ("b.csv", "q_a,q_b\n1,2\n")],
            out,
        )?;
    }
    Ok(())
}
