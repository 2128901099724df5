//! Tests of the limits of long files, at both sides of each.
use crate::long_files::reading::{assert_told, counted};
use std::alloc::{AllocError, Global};
use std::process::Abort;
use std::test::Fail;

/// A text with a piece at its end so many times.
fn repeated(alloc: Global, text: &str, piece: &str, times: u32) -> Result<String, AllocError> {
    let mut text = String::from_str(alloc, text)?;
    for _ in 0..times {
        text.push_str(piece)?;
    }
    Ok(text)
}

/// A file of one household whose id has so many letters.
fn with_long_id(alloc: Global, letters: u32) -> Result<String, AllocError> {
    let mut file = repeated(alloc, "household,p_a,q_a\nA,1,2\n ", "x", letters)?;
    file.push_str(" ,3,4\n")?;
    Ok(file)
}

#[test]
fn an_id_of_as_many_bytes_as_the_limit_and_one_more(rt: HostRuntime) -> Result<(), Fail> {
    let alloc = rt.alloc();
    let fits = with_long_id(alloc, 256)?;
    assert_counted(&rt, alloc, fits.as_str(), 2, 2, 0)?;
    let long = with_long_id(alloc, 257)?;
    let wanted = "A 1 [ 1x2];LongId 2;";
    assert_told(&rt, alloc, long.as_str(), "household", &[], wanted)
}

/// Asserts how many households a file has, how many of the last two have a table, and how many records have no id.
fn assert_counted(
    rt: &impl Abort,
    alloc: Global,
    file: &str,
    households: usize,
    tables: usize,
    unnamed: usize,
) -> Result<(), Fail> {
    let Ok(got) = counted(alloc, file, 2) else {
        return Err(Fail::from(AllocError));
    };
    assert!(rt; got == (households, tables, unnamed), "{got:?}");
    Ok(())
}

#[test]
fn a_household_of_as_many_observations_as_the_limit_and_one_more(
    rt: HostRuntime,
) -> Result<(), Fail> {
    let alloc = rt.alloc();
    let fits = repeated(alloc, "household,p_a,q_a\nB,1,1\n", "A,1,1\n", 512)?;
    assert_counted(&rt, alloc, fits.as_str(), 2, 2, 0)?;
    let many = repeated(alloc, "household,p_a,q_a\nB,1,1\n", "A,1,1\n", 513)?;
    assert_counted(&rt, alloc, many.as_str(), 2, 1, 0)
}

/// A file of so many households, of two records each that stand apart.
fn of_households(alloc: Global, count: u32) -> Result<String, AllocError> {
    let mut file = String::from_str(alloc, "household,p_a,q_a\n")?;
    for _ in 0..2 {
        for h in 0..count {
            writeln!(file, "{h},1,1")?;
        }
    }
    Ok(file)
}

#[test]
fn a_hundred_thousand_households(rt: HostRuntime) -> Result<(), Fail> {
    let alloc = rt.alloc();
    let file = of_households(alloc, 100_000)?;
    assert_counted(&rt, alloc, file.as_str(), 100_000, 2, 0)
}

#[test]
fn as_many_records_as_the_limit_and_one_more(rt: HostRuntime) -> Result<(), Fail> {
    let alloc = rt.alloc();
    let mut file = repeated(alloc, "household,p_a,q_a\nB,1,1\n", "A,1,1\n", 1_048_575)?;
    assert_counted(&rt, alloc, file.as_str(), 2, 1, 0)?;
    file.push_str("A,1,1\n")?;
    assert_told(
        &rt,
        alloc,
        file.as_str(),
        "household",
        &[],
        "TooManyRecords",
    )
}
