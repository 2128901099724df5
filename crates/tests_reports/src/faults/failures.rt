//! Each read and each write failing in turn.
use rp_commands::Status;
use std::alloc::Global;
use std::process::Abort;
use std::test::Fail;
use tests_support::{CALM, Ended, Plan, is_ended, run_in_pieces};

/// The bytes of a piece that holds each file of these tests whole.
pub(crate) const WHOLE: u32 = 65_536;

/// A line of words over files, and how it ends where nothing fails, with the text that it writes.
pub(crate) struct Case<'a> {
    pub(crate) words: &'a [&'a str],
    pub(crate) files: &'a [(&'a str, &'a str)],
    pub(crate) status: Status,
    pub(crate) text: &'a str,
}

/// What a case does where the reads and the writes of these numbers fail. Files are given in pieces of so many bytes;
/// output is taken byte by byte.
fn with_failures(
    alloc: Global,
    case: &Case<'_>,
    piece: u32,
    reads: &[u64],
    writes: &[u64],
) -> Result<Ended, Fail> {
    let reads = Plan {
        piece,
        fails: reads,
    };
    let writes = Plan {
        piece: 1,
        fails: writes,
    };
    run_in_pieces(alloc, case.words, case.files, reads, writes, CALM)
}

/// The case ends with its text, though the reads and the writes of these numbers would fail.
fn is_whole(
    rt: &impl Abort,
    alloc: Global,
    case: &Case<'_>,
    piece: u32,
    reads: &[u64],
    writes: &[u64],
) -> Result<(), Fail> {
    let got = with_failures(alloc, case, piece, reads, writes)?;
    let told = is_ended(&got, case.status, case.text, "");
    assert!(rt; told, "{:?} {} {}", case.words, got.out, got.err);
    Ok(())
}

/// Each read of each file in pieces of so many bytes fails in turn, the one that finds the end too: the file is named,
/// and nothing is written. A read past the last one is none, so that the case ends with its text.
pub(crate) fn each_read_fails(
    rt: &impl Abort,
    alloc: Global,
    case: &Case<'_>,
    piece: u32,
) -> Result<(), Fail> {
    let mut number = 1u64;
    for (name, text) in case.files {
        let line = format!(in alloc; "rp: {name}: read failed\n")?;
        for _ in 0..text.len().div_ceil(piece.max(1) as usize).saturating_add(1) {
            let got = with_failures(alloc, case, piece, &[number], &[])?;
            let told = is_ended(&got, Status::ReadFault, "", line.as_str());
            assert!(rt; told, "{:?}, read {number}", case.words);
            number = number.saturating_add(1);
        }
    }
    is_whole(rt, alloc, case, piece, &[number], &[])?;
    is_whole(rt, alloc, case, piece, &[], &[])
}

/// Each write of a byte fails in turn: what was written is a front of the text, and no verdict is told by the status. A
/// write past the last one is none, so that the case ends with its text.
pub(crate) fn each_write_fails(
    rt: &impl Abort,
    alloc: Global,
    case: &Case<'_>,
    piece: u32,
) -> Result<(), Fail> {
    let mut number = 1u64;
    for kept in 0..case.text.len() {
        let front = case.text.get(..kept).unwrap_or("");
        let got = with_failures(alloc, case, piece, &[], &[number])?;
        let told = is_ended(&got, Status::WriteFault, front, "rp: write failed\n");
        assert!(rt; told, "{:?}, after {kept} bytes", case.words);
        number = number.saturating_add(1);
    }
    is_whole(rt, alloc, case, piece, &[], &[number])
}
