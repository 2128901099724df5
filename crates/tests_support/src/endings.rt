//! How `run` is to end, row by row.
use crate::running::{is_ended, run_over};
use rp_commands::Status;
use std::alloc::Global;
use std::test::Fail;

/// The words of a check of `c.json` on `t.csv`.
pub const CHECK: &[&str] = &["rp", "check", "t.csv", "c.json"];

/// The words over these files end with this status, this output and this text on standard error.
pub fn ends(
    alloc: Global,
    words: &[&str],
    files: &[(&str, &str)],
    status: Status,
    out: &str,
    err: &str,
) -> Result<(), Fail> {
    let got = run_over(alloc, words, files)?;
    if is_ended(&got, status, out, err) {
        return Ok(());
    }
    let told = format!(in alloc;
        "{words:?} over {files:?}: wanted {status:?} {out} {err}, got {:?} {} {}",
        got.status, got.out, got.err
    )?;
    Err(told.into())
}

/// The words over these files are done with this output.
pub fn prints(
    alloc: Global,
    words: &[&str],
    files: &[(&str, &str)],
    out: &str,
) -> Result<(), Fail> {
    ends(alloc, words, files, Status::Done, out, "")
}

/// The words over these files reject a certificate with this output.
pub fn rejects(
    alloc: Global,
    words: &[&str],
    files: &[(&str, &str)],
    out: &str,
) -> Result<(), Fail> {
    ends(alloc, words, files, Status::Rejected, out, "")
}

/// The words over these files are refused with this line.
pub fn refuses(
    alloc: Global,
    words: &[&str],
    files: &[(&str, &str)],
    line: &str,
) -> Result<(), Fail> {
    ends(alloc, words, files, Status::Refused, "", line)
}

/// The pieces after one another.
pub fn joined(alloc: Global, pieces: &[&str]) -> Result<String, Fail> {
    let mut text = String::new(alloc);
    for piece in pieces {
        text.push_str(piece)?;
    }
    Ok(text)
}

/// The text so many times.
pub fn repeated(alloc: Global, piece: &str, times: usize) -> Result<String, Fail> {
    let mut text = String::new(alloc);
    for _ in 0..times {
        text.push_str(piece)?;
    }
    Ok(text)
}

/// A text of so many of this ASCII character.
pub fn filled(alloc: Global, byte: u8, size: usize) -> Result<String, Fail> {
    Ok(String::from_utf8(vec![in alloc; byte; size]?)?)
}
