//! Both sides of the limits of technologies.
use crate::cost::readers::{Wanted, reads_technology, technology_in};
use rp_cost::{TableFault, Tech, read_asked};
use std::alloc::{AllocError, Global};
use std::process::Abort;
use std::test::Fail;

/// A first part, and then so many times another.
pub(crate) fn repeated(
    alloc: Global,
    first: &str,
    part: &str,
    times: u32,
) -> Result<String, AllocError> {
    let mut text = String::from_str(alloc, first)?;
    push_repeated(&mut text, part, times)?;
    Ok(text)
}

/// Puts a part so many times at the end.
fn push_repeated(text: &mut String, part: &str, times: u32) -> Result<(), AllocError> {
    for _ in 0..times {
        text.push_str(part)?;
    }
    Ok(())
}

/// Puts the columns of an input at the end, named by so many letters.
fn push_columns(text: &mut String, letters: u32) -> Result<(), AllocError> {
    text.push_str(",w_")?;
    push_repeated(text, "n", letters)?;
    text.push_str(",x_")?;
    push_repeated(text, "n", letters)
}

/// A file of one record with a column of outputs and so many inputs, named by as many letters as they are.
fn inputs_of(alloc: Global, inputs: u32) -> Result<String, AllocError> {
    let mut text = String::from_str(alloc, "y")?;
    for i in 0..inputs {
        push_columns(&mut text, i.saturating_add(1))?;
    }
    text.push_str("\n1")?;
    push_repeated(&mut text, ",1,1", inputs)?;
    Ok(text)
}

/// A file of one record with an input that is named by so many letters.
fn named_by(alloc: Global, letters: u32) -> Result<String, AllocError> {
    let mut text = String::from_str(alloc, "y")?;
    push_columns(&mut text, letters)?;
    text.push_str("\n1,1,1\n")?;
    Ok(text)
}

/// How many records and inputs a file of a technology has, or its fault.
fn size(alloc: Global, file: &str) -> Result<(u32, u32), TableFault> {
    let tech = technology_in(alloc, file)?;
    Ok((tech.count(), tech.inputs()))
}

/// How many outputs a file asks of a technology, or its fault.
fn asked_count(alloc: Global, tech: &Tech, file: &str) -> Result<u32, TableFault> {
    Ok(read_asked(alloc, file.as_bytes(), tech)?.count())
}

/// A file of a technology has so many records and inputs, or this fault.
fn check_size(
    rt: &impl Abort,
    alloc: Global,
    label: &str,
    file: String,
    want: Result<(u32, u32), TableFault>,
) -> Result<(), Fail> {
    let got = size(alloc, file.as_str());
    assert!(rt; got == want, "{label}");
    Ok(())
}

/// A file of a technology with so many records.
fn records_of(alloc: Global, records: u32) -> Result<String, AllocError> {
    repeated(alloc, "y,w_a,x_a\n", "1,1,1\n", records)
}

#[test]
fn as_many_inputs_as_the_limit_and_one_more(rt: HostRuntime) -> Result<(), Fail> {
    let file = inputs_of(rt.alloc(), 16)?;
    check_size(&rt, rt.alloc(), "16 inputs", file, Ok((1, 16)))?;
    let file = inputs_of(rt.alloc(), 17)?;
    let fault = TableFault::TooManyGoods;
    check_size(&rt, rt.alloc(), "17 inputs", file, Err(fault))
}

#[test]
fn as_many_records_as_the_limit_and_one_more(rt: HostRuntime) -> Result<(), Fail> {
    let file = records_of(rt.alloc(), 512)?;
    check_size(&rt, rt.alloc(), "512 records", file, Ok((512, 1)))?;
    let file = records_of(rt.alloc(), 513)?;
    let fault = TableFault::TooManyRecords;
    check_size(&rt, rt.alloc(), "513 records", file, Err(fault))
}

/// A technology is read so of a file with such a name.
fn check_name(rt: &impl Abort, alloc: Global, letters: u32, want: Wanted) -> Result<(), Fail> {
    let file = named_by(alloc, letters)?;
    let is_read = reads_technology(alloc, file.as_str(), want)?;
    assert!(rt; is_read, "{letters}");
    Ok(())
}

#[test]
fn a_name_as_long_as_the_limit_and_one_byte_more(rt: HostRuntime) -> Result<(), Fail> {
    check_name(&rt, rt.alloc(), 64, Ok(&[1, 0, 0, 1, 1, 1]))?;
    let fault = TableFault::BadHeader { column: 2 };
    check_name(&rt, rt.alloc(), 65, Err(fault))
}

/// The technology with the most records.
fn technology_of_the_most(alloc: Global) -> Result<Tech, Fail> {
    let file = records_of(alloc, 512)?;
    Ok(technology_in(alloc, file.as_str())?)
}

/// A file asks so many outputs of a technology, or has this fault.
fn check_count(
    rt: &impl Abort,
    alloc: Global,
    tech: &Tech,
    label: &str,
    file: String,
    want: Result<u32, TableFault>,
) -> Result<(), Fail> {
    let got = asked_count(alloc, tech, file.as_str());
    assert!(rt; got == want, "{label}");
    Ok(())
}

#[test]
fn as_many_asked_outputs_as_the_limit_and_one_more(rt: HostRuntime) -> Result<(), Fail> {
    let tech = technology_of_the_most(rt.alloc())?;
    let file = repeated(rt.alloc(), "w_a,y\n", "1,1\n", 16)?;
    check_count(&rt, rt.alloc(), &tech, "16 outputs", file, Ok(16))?;
    let file = repeated(rt.alloc(), "w_a,y\n", "1,1\n", 17)?;
    let fault = TableFault::TooManyRecords;
    check_count(&rt, rt.alloc(), &tech, "17 outputs", file, Err(fault))
}
