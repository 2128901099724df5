//! Tests of the program `rp-panel` over files in memory: its page, its version, and its hints on standard error.
use crate::running::{HEADER, USAGE, files_with, owned_words};
use rp_outside::{MemDesk, MemSink};
use rp_panel_run::{Status, run_panel_with_help};
use std::alloc::Global;
use std::process::Abort;
use std::test::Fail;

/// The room of each sink, in bytes.
const ROOM: u64 = 65_536;

/// A household whose two purchases contradict each other.
const LONG: &str = "household,p_a,q_a,p_b,q_b\nA,1,1,2,2\nA,2,2,1,1\n";

/// What a call did.
#[derive(Drop)]
struct Ended {
    status: Status,
    out: String,
    err: String,
}

/// Runs words over the file `l.csv`, with the writes of these numbers failing.
fn run_over(alloc: Global, words: &[&str], failing: &[u64]) -> Result<Ended, Fail> {
    let all = owned_words(alloc, words)?;
    let mut desk = MemDesk::new(files_with(alloc, LONG, None)?, Vec::new(alloc));
    let mut out = MemSink::new(alloc, ROOM, Vec::from_slice(alloc, failing)?)?;
    let mut err = MemSink::new(alloc, ROOM, Vec::new(alloc))?;
    let status = run_panel_with_help(alloc, &all, &mut desk, &mut out, &mut err);
    Ok(Ended {
        status,
        out: String::from_utf8_lossy(alloc, out.written())?,
        err: String::from_utf8_lossy(alloc, err.written())?,
    })
}

/// Words that are refused, the status, and what is told.
const TOLD: &[(&[&str], Status, &str)] = &[
    (
        &["l.csv", "--id", "who"],
        Status::Refused,
        "rp-panel: l.csv: NoIdColumn\n\
        hint: The file does not have a column with the name of the ids. \
        Name the column with --id NAME; without this option the name is household.\n",
    ),
    (
        &["l.csv", "--keep", "town"],
        Status::Refused,
        "rp-panel: l.csv: NoKeptColumn name 1\n\
        hint: A column that --keep names is not in the file. \
        Write the name exactly as the file has it.\n",
    ),
    (
        &["m.csv"],
        Status::ReadFault,
        "rp-panel: m.csv: read failed\n\
        hint: The file does not exist, or it could not be read. \
        Check its name and its folder, and that you may read it.\n",
    ),
];

#[test]
fn a_hint_follows_each_error(rt: HostRuntime) -> Result<(), Fail> {
    let alloc = rt.alloc();
    for (words, status, told) in TOLD {
        let ended = run_over(alloc, words, &[])?;
        assert!(rt; ended.status == *status && ended.out.as_str().is_empty());
        assert!(rt; ended.err.as_str() == *told, "{}", ended.err);
    }
    let usage = run_over(alloc, &["--help", "l.csv"], &[])?;
    assert!(rt; usage.status == Status::Usage && usage.out.as_str().is_empty());
    assert!(rt; usage.err.as_str().starts_with(USAGE));
    assert!(rt;
        usage
            .err
            .as_str()
            .contains("\nhint: The words are not a command")
    );
    let cut = run_over(alloc, &["l.csv"], &[1])?;
    assert!(rt; cut.status == Status::WriteFault);
    assert!(rt;
        cut.err
            .as_str()
            .starts_with("rp-panel: write failed\nhint: The result")
    );
    Ok(())
}

#[test]
fn a_table_has_no_hint(rt: HostRuntime) -> Result<(), Fail> {
    let ended = run_over(rt.alloc(), &["l.csv"], &[])?;
    assert!(rt; ended.status == Status::Done && ended.err.as_str().is_empty());
    assert!(rt; ended.out.as_str().starts_with(HEADER));
    Ok(())
}

#[test]
fn pages(rt: HostRuntime) -> Result<(), Fail> {
    let alloc = rt.alloc();
    let version = run_over(alloc, &["--version"], &[])?;
    assert!(rt; version.status == Status::Done && version.err.as_str().is_empty());
    assert!(rt; version.out.as_str() == "rp-panel 0.17.0\n");
    let help = run_over(alloc, &["--help"], &[])?;
    assert!(rt; help.status == Status::Done && help.err.as_str().is_empty());
    for option in [
        "--id NAME",
        "--keep NAME",
        "--pump",
        "--power DRAWS SEED",
        "--wide",
    ] {
        assert!(rt; help.out.as_str().contains(option), "{option}");
    }
    let cut = run_over(alloc, &["--version"], &[1])?;
    assert!(rt; cut.status == Status::WriteFault && cut.out.as_str().is_empty());
    assert!(rt;
        cut.err
            .as_str()
            .starts_with("rp-panel: write failed\nhint: The result")
    );
    Ok(())
}
