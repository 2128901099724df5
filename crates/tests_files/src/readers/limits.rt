//! Tests of how many records a file may have: as many as the limit, and one more.
use crate::readers::reading::{Reader, assert_told};
use std::alloc::{AllocError, Global};
use std::process::Abort;
use std::test::Fail;

/// A text with a piece at its end so many times.
fn repeated(alloc: Global, text: &str, piece: &str, times: u32) -> Result<String, AllocError> {
    let mut text = String::from_str(alloc, text)?;
    for _ in 0..times {
        text.push_str(piece)?;
    }
    Ok(text)
}

/// Asserts that a reader takes the lines with a record at their end so many times, finds these numbers with the
/// record's so many times, and does not take one record more.
fn assert_limit(
    rt: &impl Abort,
    alloc: Global,
    reader: Reader,
    lines: (&str, &str),
    numbers: (&str, &str),
    times: u32,
) -> Result<(), Fail> {
    let mut file = repeated(alloc, lines.0, lines.1, times)?;
    let mut wanted = repeated(alloc, numbers.0, numbers.1, times)?;
    wanted.push_str("])")?;
    assert_told(rt, alloc, reader, file.as_str(), wanted.as_str())?;
    file.push_str(lines.1)?;
    assert_told(rt, alloc, reader, file.as_str(), "Err(TooManyRecords)")
}

#[test]
fn as_many_new_prices_and_bundles_as_the_limit_and_one_more(rt: HostRuntime) -> Result<(), Fail> {
    let (prices, found) = (("p_a,p_b|1,2|", "1,2|"), ("Ok([1, 2, 0", ", 1, 2, 0"));
    assert_limit(&rt, rt.alloc(), Reader::WithoutM, prices, found, 15)?;
    let (bundles, found) = (("q_a,q_b|1,2|", "1,2|"), ("Ok([1, 2", ", 1, 2"));
    assert_limit(&rt, rt.alloc(), Reader::WholeBundles, bundles, found, 15)
}

#[test]
fn as_many_budgets_and_choices_as_the_limit_and_one_more(rt: HostRuntime) -> Result<(), Fail> {
    let (budgets, found) = (("p_a,w|1,2|", "1,2|"), ("Ok([1, 2", ", 1, 2"));
    assert_limit(&rt, rt.alloc(), Reader::Budgets, budgets, found, 47)?;
    let (choices, found) = (
        ("budget,q_a,n|1,1,1|", "1,1,1|"),
        ("Ok([0, 1, 1", ", 0, 1, 1"),
    );
    assert_limit(
        &rt,
        rt.alloc(),
        Reader::ChoicesFromOne,
        choices,
        found,
        4_095,
    )
}
