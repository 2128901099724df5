//! Reports of `pump`.
use crate::measures::pump_reports::WORKED;
use std::alloc::Global;
use std::test::Fail;
use tests_support::prints;

/// The pump of a table is printed so.
fn check_pump(alloc: Global, table: &str, out: &str) -> Result<(), Fail> {
    prints(alloc, &["rp", "pump", "t.csv"], &[("t.csv", table)], out)
}

/// The pump of each table is printed so.
fn check_pumps(alloc: Global, cases: &[(&str, &str)]) -> Result<(), Fail> {
    for (table, out) in cases {
        check_pump(alloc, table, out)?;
    }
    Ok(())
}

#[test]
fn pump_reports_the_greatest_ratio_with_its_evidence(rt: HostRuntime) -> Result<(), Fail> {
    check_pumps(rt.alloc(), WORKED)
}

/// A first part, then so many times another, and the last.
fn framed(alloc: Global, first: &str, part: &str, times: u32, last: &str) -> Result<String, Fail> {
    let mut text = String::from_str(alloc, first)?;
    for _ in 0..times {
        text.push_str(part)?;
    }
    text.push_str(last)?;
    Ok(text)
}

/// Two observations that contradict each other, again and again: a step to an equal one gains nothing, and each other
/// step 1 of 5.
#[test]
fn pump_of_the_most_observations_that_contradict_each_other(rt: HostRuntime) -> Result<(), Fail> {
    let alloc = rt.alloc();
    let table = framed(alloc, "p_a,q_a,p_b,q_b\n", "1,1,2,2\n2,2,1,1\n", 256, "")?;
    let head = "observations 512 goods 2 places 0 0\npump 1/5\ncycle 1 2 1\nvalues";
    let out = framed(alloc, head, " 0 0", 256, "\n")?;
    check_pump(alloc, table.as_str(), out.as_str())
}

/// Puts a number between two texts at the end.
fn push_number(
    alloc: Global,
    text: &mut String,
    before: &str,
    number: u32,
    after: &str,
) -> Result<(), Fail> {
    let told = format!(in alloc; "{before}{number}{after}")?;
    text.push_str(told.as_str())?;
    Ok(())
}

/// The most observations of one good at one price, of which one less is bought each time.
fn chain(alloc: Global) -> Result<String, Fail> {
    let mut table = String::from_str(alloc, "p_a,q_a\n")?;
    for t in 0..512u32 {
        push_number(alloc, &mut table, "1,", 512 - t, "\n")?;
    }
    Ok(table)
}

/// What `pump` prints on it.
fn pump_of_the_chain(alloc: Global) -> Result<String, Fail> {
    let head = "observations 512 goods 1 places 0 0\npump 0\ncycle 1 1\nvalues 0";
    let mut out = String::from_str(alloc, head)?;
    for t in 1..512u32 {
        push_number(alloc, &mut out, " -", t, "")?;
    }
    out.push_str("\n")?;
    Ok(out)
}

/// One good at one price, of which less is bought each time: no step leads back, and the one from the first observation
/// gains the most.
#[test]
fn pump_of_the_most_observations_in_a_chain(rt: HostRuntime) -> Result<(), Fail> {
    let table = chain(rt.alloc())?;
    let out = pump_of_the_chain(rt.alloc())?;
    check_pump(rt.alloc(), table.as_str(), out.as_str())
}
