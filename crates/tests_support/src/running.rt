//! `run` over files in memory.
use rp_outside::{DripDesk, DripSink, MemDesk, MemFile, MemSink};
use rp_run::{Status, run};
use std::alloc::Global;
use std::test::Fail;

/// The room of each sink, in bytes.
const ROOM: u64 = 65_536;

/// What a call of `run` did: its status, its output, and what it told on standard error.
#[derive(Drop)]
pub struct Ended {
    pub status: Status,
    pub out: String,
    pub err: String,
}

/// Whether a run ended so, with these texts.
pub fn is_ended(got: &Ended, status: Status, out: &str, err: &str) -> bool {
    got.status == status && got.out.as_str() == out && got.err.as_str() == err
}

/// Whether a run ended so, with this output and nothing told.
pub fn gives(got: &Ended, status: Status, out: &str) -> bool {
    is_ended(got, status, out, "")
}

/// Whether a run ended so, with no output and this line told.
pub fn tells(got: &Ended, status: Status, line: &str) -> bool {
    is_ended(got, status, "", line)
}

/// The most bytes that one call of a desk or a sink gives or takes, at least 1, and the numbers of its calls that
/// fail, from 1.
#[derive(Clone, Copy)]
pub struct Plan<'a> {
    pub piece: u32,
    pub fails: &'a [u64],
}

/// Whole pieces, and no call that fails.
pub const CALM: Plan<'static> = Plan {
    piece: 65_536,
    fails: &[],
};

/// The words of a command line.
fn owned_words(alloc: Global, words: &[&str]) -> Result<Vec<String>, Fail> {
    let mut all = Vec::new(alloc);
    for word in words {
        all.push(String::from_str(alloc, word)?)?;
    }
    Ok(all)
}

/// Files of these names and texts.
fn owned_files(alloc: Global, files: &[(&str, &str)]) -> Result<Vec<MemFile>, Fail> {
    let mut all = Vec::new(alloc);
    for (name, text) in files {
        all.push(MemFile {
            name: String::from_str(alloc, name)?,
            bytes: Vec::from_slice(alloc, text.as_bytes())?,
        })?;
    }
    Ok(all)
}

/// Runs the words over these files.
pub fn run_over(alloc: Global, words: &[&str], files: &[(&str, &str)]) -> Result<Ended, Fail> {
    run_with_failures(alloc, words, files, &[], &[])
}

/// Runs the words over these files, of which the reads of these numbers fail, and of the output the writes.
pub fn run_with_failures(
    alloc: Global,
    words: &[&str],
    files: &[(&str, &str)],
    reads: &[u64],
    writes: &[u64],
) -> Result<Ended, Fail> {
    let all = owned_words(alloc, words)?;
    let mut desk = MemDesk::new(owned_files(alloc, files)?, Vec::from_slice(alloc, reads)?);
    let mut out = MemSink::new(alloc, ROOM, Vec::from_slice(alloc, writes)?)?;
    let mut err = MemSink::new(alloc, ROOM, Vec::new(alloc))?;
    let status = run(alloc, &all, &mut desk, &mut out, &mut err);
    Ok(Ended {
        status,
        out: String::from_utf8_lossy(alloc, out.written())?,
        err: String::from_utf8_lossy(alloc, err.written())?,
    })
}

/// A sink that takes bytes by a plan.
fn sink_by(alloc: Global, plan: Plan<'_>) -> Result<DripSink, Fail> {
    let fails = Vec::from_slice(alloc, plan.fails)?;
    Ok(DripSink::new(alloc, ROOM, plan.piece.max(1), fails)?)
}

/// Runs the words over these files, with a plan for the files, the output and the errors each.
pub fn run_in_pieces(
    alloc: Global,
    words: &[&str],
    files: &[(&str, &str)],
    reads: Plan<'_>,
    writes: Plan<'_>,
    errors: Plan<'_>,
) -> Result<Ended, Fail> {
    let all = owned_words(alloc, words)?;
    let fails = Vec::from_slice(alloc, reads.fails)?;
    let mut desk = DripDesk::new(owned_files(alloc, files)?, reads.piece.max(1), fails);
    let mut out = sink_by(alloc, writes)?;
    let mut err = sink_by(alloc, errors)?;
    let status = run(alloc, &all, &mut desk, &mut out, &mut err);
    Ok(Ended {
        status,
        out: String::from_utf8_lossy(alloc, out.written())?,
        err: String::from_utf8_lossy(alloc, err.written())?,
    })
}
