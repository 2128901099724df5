//! Reports of `power`.
use crate::measures::power_counts::PARALLEL;
use rp_power::report_power;
use rp_text::read_table;
use std::alloc::Global;
use std::test::Fail;
use tests_inputs::tables::{ALONE, CONTRADICTION};
use tests_support::prints;

/// A table, the words with the seed and the number of draws, and what `power` prints.
type Case = (&'static str, &'static [&'static str], &'static str);

const CASES: &[Case] = &[
    (
        ALONE,
        &["rp", "power", "t.csv", "7", "10"],
        "observations 1 goods 1 places 0 0\npower 7 draws 10 violations 0\n",
    ),
    (
        PARALLEL,
        &["rp", "power", "t.csv", "0", "1"],
        "observations 2 goods 2 places 0 0\npower 0 draws 1 violations 0\n",
    ),
    // budgets that cross: as many as another program counts
    (
        CONTRADICTION,
        &["rp", "power", "t.csv", "7", "1000"],
        "observations 2 goods 2 places 0 0\npower 7 draws 1000 violations 69\n",
    ),
    // the greatest numbers
    (
        ALONE,
        &["rp", "power", "t.csv", "18446744073709551615", "1000"],
        "observations 1 goods 1 places 0 0\npower 18446744073709551615 draws 1000 violations 0\n",
    ),
];

/// The words print this over a table.
fn check_power(alloc: Global, table: &str, words: &[&str], out: &str) -> Result<(), Fail> {
    prints(alloc, words, &[("t.csv", table)], out)
}

/// The words of each case print what it says.
fn check_powers(alloc: Global, cases: &[Case]) -> Result<(), Fail> {
    for (table, words, out) in cases {
        check_power(alloc, table, words, out)?;
    }
    Ok(())
}

#[test]
fn power_counts_violations(rt: HostRuntime) -> Result<(), Fail> {
    check_powers(rt.alloc(), CASES)
}

/// The report of this power on a table.
fn report(alloc: Global, file: &str) -> Result<Vec<u8>, Fail> {
    let table = read_table(alloc, file.as_bytes())?;
    Ok(report_power(alloc, &table, 42, 1000, 345)?)
}

#[test]
fn a_report_of_power(rt: HostRuntime) -> Result<(), Fail> {
    let text = report(rt.alloc(), "p_a,q_a,p_b,q_b\n1.25,1,2,0.5\n")?;
    let want = b"observations 1 goods 2 places 2 1\npower 42 draws 1000 violations 345\n";
    assert_eq!(rt; text.as_slice(), want.as_slice());
    Ok(())
}
