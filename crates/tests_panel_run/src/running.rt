//! `run_panel` over files in memory.
use rp_outside::{MemDesk, MemFile, MemSink};
use rp_panel_run::{Status, run_panel};
use std::alloc::Global;
use std::test::Fail;

/// The header without columns that are kept.
pub(crate) const HEADER: &str =
    "household,observations,goods,garp,efficiency,efficiency_floor,attained,homothetic,\
    quasilinear,pump,pump_floor,power,fault,record,column";

/// What is told of words that are none that the program takes.
pub(crate) const USAGE: &str =
    "usage: rp-panel LONG [--id NAME] [--keep NAME].. [--pump] [--power DRAWS SEED] [--intercepts] [--wide]\n\
    \x20      rp-panel LONG [--id NAME] [--keep NAME].. (--demand | --welfare) NEW [--wide]\n";

/// The room of each sink, in bytes.
const ROOM: u64 = 65_536;

/// What a call did: its status, its output, and what it told on standard error.
#[derive(Drop)]
pub(crate) struct Ended {
    pub(crate) status: Status,
    pub(crate) out: String,
    pub(crate) err: String,
}

/// The numbers of the calls that fail, from 1: reads of files, writes of the output, writes to standard error.
#[derive(Clone, Copy)]
pub(crate) struct Failures<'a> {
    pub(crate) reads: &'a [u64],
    pub(crate) writes: &'a [u64],
    pub(crate) tellings: &'a [u64],
}

/// Nothing fails.
pub(crate) const CALM: Failures<'static> = Failures {
    reads: &[],
    writes: &[],
    tellings: &[],
};

/// The program's name and these words.
pub(crate) fn owned_words(alloc: Global, words: &[&str]) -> Result<Vec<String>, Fail> {
    let mut all = Vec::new(alloc);
    all.push(String::from_str(alloc, "rp-panel")?)?;
    for word in words {
        all.push(String::from_str(alloc, word)?)?;
    }
    Ok(all)
}

/// A file of that name and this text.
fn file(alloc: Global, name: &str, text: &str) -> Result<MemFile, Fail> {
    Ok(MemFile {
        name: String::from_str(alloc, name)?,
        bytes: Vec::from_slice(alloc, text.as_bytes())?,
    })
}

/// The file `l.csv` of the first text, and `n.csv` of the second, where there is one.
pub(crate) fn files_with(
    alloc: Global,
    text: &str,
    new: Option<&str>,
) -> Result<Vec<MemFile>, Fail> {
    let mut files = Vec::new(alloc);
    files.push(file(alloc, "l.csv", text)?)?;
    if let Some(new) = new {
        files.push(file(alloc, "n.csv", new)?)?;
    }
    Ok(files)
}

/// Runs the words over the file `l.csv` of this text, where these calls fail.
pub(crate) fn run_failing(
    alloc: Global,
    words: &[&str],
    text: &str,
    fails: Failures<'_>,
) -> Result<Ended, Fail> {
    run_beside(alloc, words, text, None, fails)
}

/// Runs the words over the file `l.csv`, and a file `n.csv` where there is one, where these calls fail.
pub(crate) fn run_beside(
    alloc: Global,
    words: &[&str],
    text: &str,
    new: Option<&str>,
    fails: Failures<'_>,
) -> Result<Ended, Fail> {
    let all = owned_words(alloc, words)?;
    let mut desk = MemDesk::new(
        files_with(alloc, text, new)?,
        Vec::from_slice(alloc, fails.reads)?,
    );
    let mut out = MemSink::new(alloc, ROOM, Vec::from_slice(alloc, fails.writes)?)?;
    let mut err = MemSink::new(alloc, ROOM, Vec::from_slice(alloc, fails.tellings)?)?;
    let status = run_panel(alloc, &all, &mut desk, &mut out, &mut err);
    Ok(Ended {
        status,
        out: String::from_utf8_lossy(alloc, out.written())?,
        err: String::from_utf8_lossy(alloc, err.written())?,
    })
}

/// Runs the words over the file `l.csv` of this text.
pub(crate) fn run_over(alloc: Global, words: &[&str], text: &str) -> Result<Ended, Fail> {
    run_failing(alloc, words, text, CALM)
}

/// A call ended so.
pub(crate) fn assert_ended(
    alloc: Global,
    words: &[&str],
    got: &Ended,
    status: Status,
    out: &str,
    err: &str,
) -> Result<(), Fail> {
    if got.status == status && got.out.as_str() == out && got.err.as_str() == err {
        return Ok(());
    }
    let told = format!(in alloc;
        "{words:?}: wanted {status:?} {out} {err}, got {:?} {} {}",
        got.status, got.out, got.err
    )?;
    Err(told.into())
}

/// The words over the file of this text end so.
pub(crate) fn ends(
    alloc: Global,
    words: &[&str],
    text: &str,
    status: Status,
    out: &str,
    err: &str,
) -> Result<(), Fail> {
    let got = run_over(alloc, words, text)?;
    assert_ended(alloc, words, &got, status, out, err)
}

/// The words over the file of this text write the header, with these names at its end, and these lines, and tell that.
pub(crate) fn writes(
    alloc: Global,
    words: &[&str],
    text: &str,
    names: &str,
    lines: &str,
    told: &str,
) -> Result<(), Fail> {
    let out = format!(in alloc; "{HEADER}{names}\n{lines}")?;
    ends(alloc, words, text, Status::Done, out.as_str(), told)
}
