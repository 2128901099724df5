//! The program over files in memory.
use crate::worked::WORKED;
use rp_fit_run::run_fit;
use rp_front::Status;
use rp_outside::{MemDesk, MemFile, MemSink};
use std::alloc::Global;
use std::process::Abort;
use std::test::Fail;
use tests_inputs::tables::{AT_800, CONTRADICTION};

/// The room of each sink, in bytes.
const ROOM: u64 = 65_536;

/// What a call did.
#[derive(Drop)]
pub(crate) struct Ended {
    pub(crate) status: Status,
    pub(crate) out: String,
    pub(crate) err: String,
}

/// The words of a command line.
fn owned_words(alloc: Global, words: &[&str]) -> Result<Vec<String>, Fail> {
    let mut all = Vec::new(alloc);
    for word in words {
        all.push(String::from_str(alloc, word)?)?;
    }
    Ok(all)
}

/// Files of these names and texts.
fn owned_files(alloc: Global, files: &[(&str, &str)]) -> Result<Vec<MemFile>, Fail> {
    let mut all = Vec::new(alloc);
    for (name, text) in files {
        all.push(MemFile {
            name: String::from_str(alloc, name)?,
            bytes: Vec::from_slice(alloc, text.as_bytes())?,
        })?;
    }
    Ok(all)
}

/// Runs words over files, with hints or without, and with the writes of these numbers failing.
pub(crate) fn run_over(
    alloc: Global,
    words: &[&str],
    hints: bool,
    files: &[(&str, &str)],
    failing: &[u64],
) -> Result<Ended, Fail> {
    let all = owned_words(alloc, words)?;
    let mut desk = MemDesk::new(owned_files(alloc, files)?, Vec::new(alloc));
    let mut out = MemSink::new(alloc, ROOM, Vec::from_slice(alloc, failing)?)?;
    let mut err = MemSink::new(alloc, ROOM, Vec::new(alloc))?;
    let status = run_fit(alloc, hints, &all, &mut desk, &mut out, &mut err);
    Ok(Ended {
        status,
        out: String::from_utf8_lossy(alloc, out.written())?,
        err: String::from_utf8_lossy(alloc, err.written())?,
    })
}

/// Asserts how a call ended.
pub(crate) fn assert_ended(rt: &impl Abort, got: &Ended, status: Status, out: &str, err: &str) {
    assert_eq!(rt; got.status, status);
    assert!(rt; got.out.as_str() == out, "{}", got.out);
    assert!(rt; got.err.as_str() == err, "{}", got.err);
}

/// Tables and certificates, most of which have an error.
const FILES: &[(&str, &str)] = &[
    ("t.csv", CONTRADICTION),
    ("levels.csv", AT_800),
    ("bad.csv", "p_a,q_a\n1,x\n"),
    ("unpaired.csv", "p_a,q_b\n1,1\n"),
    (
        "none.json",
        "{\"items\":[],\"kind\":\"fit\",\"version\":1}\n",
    ),
    ("text.json", "fit"),
    (
        "table.json",
        "{\"items\":[],\"kind\":\"table\",\"version\":1}\n",
    ),
    (
        "later.json",
        "{\"items\":[],\"kind\":\"fit\",\"version\":2}\n",
    ),
    (
        "item.json",
        "{\"items\":[{\"item\":\"garp\",\"ranks\":[1,1]}],\"kind\":\"fit\",\"version\":1}\n",
    ),
];

/// The names of the table and of the certificate, the exit code of their check, its output, and its error message.
type Row = (
    &'static str,
    &'static str,
    Status,
    &'static str,
    &'static str,
);

/// A certificate without items is accepted. Then come errors of the table, which is read first, errors of the
/// certificate, and files that are not there.
const ROWS: &[Row] = &[
    ("t.csv", "none.json", Status::Done, "accepted items 0\n", ""),
    (
        "bad.csv",
        "text.json",
        Status::Refused,
        "",
        "rp: bad.csv: BadNumber record 1 column 2\n",
    ),
    (
        "unpaired.csv",
        "other.json",
        Status::Refused,
        "",
        "rp: unpaired.csv: Unpaired column 1\n",
    ),
    (
        "levels.csv",
        "text.json",
        Status::Refused,
        "",
        "rp: levels.csv: OwnLevels\n",
    ),
    (
        "t.csv",
        "text.json",
        Status::Refused,
        "",
        "rp: text.json: NotJson\n",
    ),
    (
        "t.csv",
        "table.json",
        Status::Refused,
        "",
        "rp: table.json: BadShape item 0\n",
    ),
    (
        "t.csv",
        "later.json",
        Status::Refused,
        "",
        "rp: later.json: BadVersion\n",
    ),
    (
        "t.csv",
        "item.json",
        Status::Refused,
        "",
        "rp: item.json: BadShape item 1\n",
    ),
    (
        "t.csv",
        "other.json",
        Status::ReadFault,
        "",
        "rp: other.json: read failed\n",
    ),
    (
        "other.csv",
        "other.json",
        Status::ReadFault,
        "",
        "rp: other.csv: read failed\n",
    ),
];

/// Asserts how each check ends.
fn assert_rows(rt: &impl Abort, alloc: Global, rows: &[Row]) -> Result<(), Fail> {
    for k in 0..rows.len() {
        let (table, certificate, status, out, err) = rows[k];
        let words = ["rp-wide", "checkfit", table, certificate];
        let ended = run_over(alloc, &words, false, FILES, &[])?;
        assert_ended(rt, &ended, status, out, err);
    }
    Ok(())
}

#[test]
fn files_are_rejected(rt: HostRuntime) -> Result<(), Fail> {
    assert_rows(&rt, rt.alloc(), ROWS)
}

/// How the program is called.
const USAGE: &str =
    "usage: rp-wide fit TABLE [--json]\n       rp-wide checkfit TABLE CERT\n       rp-wide random BUDGETS CHOICES --steps N [--per N] [--json]\n";

/// Words that the program does not take.
const OTHERS: [&[&str]; 8] = [
    &[],
    &["rp-wide"],
    &["rp-wide", "checkfit", "t.csv"],
    &["rp-wide", "checkfit", "t.csv", "-c"],
    &["rp-wide", "checkfit", "", "none.json"],
    &["rp-wide", "checkfit", "t.csv", "none.json", "none.json"],
    &["rp-wide", "check", "t.csv", "none.json"],
    &["rp-wide", "checkfits", "t.csv", "none.json"],
];

/// Asserts that words are answered by the usage.
fn assert_usage(rt: &impl Abort, alloc: Global, all: &[&[&str]]) -> Result<(), Fail> {
    for k in 0..all.len() {
        let ended = run_over(alloc, all[k], false, FILES, &[])?;
        assert_ended(rt, &ended, Status::Usage, "", USAGE);
    }
    Ok(())
}

#[test]
fn other_words_ask_for_nothing(rt: HostRuntime) -> Result<(), Fail> {
    assert_usage(&rt, rt.alloc(), &OTHERS)
}

/// What the check of a certificate on a table does.
fn checked(alloc: Global, table: &str, certificate: &str) -> Result<Ended, Fail> {
    let files = [("t.csv", table), ("c.json", certificate)];
    run_over(
        alloc,
        &["rp-wide", "checkfit", "t.csv", "c.json"],
        false,
        &files,
        &[],
    )
}

/// Asserts that the worked certificates are accepted.
fn assert_accepted(rt: &impl Abort, alloc: Global) -> Result<(), Fail> {
    for k in 0..WORKED.len() {
        let (table, _, text, _) = WORKED[k];
        let ended = checked(alloc, table, text)?;
        assert_ended(rt, &ended, Status::Done, "accepted items 9\n", "");
    }
    Ok(())
}

#[test]
fn worked_certificates_are_accepted(rt: HostRuntime) -> Result<(), Fail> {
    assert_accepted(&rt, rt.alloc())
}

/// What `fit` prints of a table: JSON, or the report.
fn fitted(alloc: Global, table: &str, json: bool) -> Result<Ended, Fail> {
    let files = [("t.csv", table)];
    if json {
        run_over(
            alloc,
            &["rp-wide", "fit", "t.csv", "--json"],
            false,
            &files,
            &[],
        )
    } else {
        run_over(alloc, &["rp-wide", "fit", "t.csv"], false, &files, &[])
    }
}

/// Asserts that `checkfit` accepts what `fit` writes of the worked tables.
fn assert_made(rt: &impl Abort, alloc: Global) -> Result<(), Fail> {
    for k in 0..WORKED.len() {
        let (table, _, _, _) = WORKED[k];
        let made = fitted(alloc, table, true)?;
        assert_eq!(rt; made.status, Status::Done);
        let ended = checked(alloc, table, made.out.as_str())?;
        assert_ended(rt, &ended, Status::Done, "accepted items 9\n", "");
    }
    Ok(())
}

#[test]
fn what_fit_writes_is_accepted(rt: HostRuntime) -> Result<(), Fail> {
    assert_made(&rt, rt.alloc())
}

/// How the report of the first worked table begins.
const BEGINNING: &str =
    "observations 2 goods 2 places 0 0\nviolations garp 2 wgarp 2 warp 2 sarp 2 of 2\nviolating observations 2 of 2\nefficiency 4/5 attained yes\n";

#[test]
fn fit_prints_a_report(rt: HostRuntime) -> Result<(), Fail> {
    let ended = fitted(rt.alloc(), CONTRADICTION, false)?;
    assert_eq!(rt; ended.status, Status::Done);
    assert!(rt; ended.out.as_str().starts_with(BEGINNING), "{}", ended.out);
    Ok(())
}

#[test]
fn fit_refuses_levels_of_observations(rt: HostRuntime) -> Result<(), Fail> {
    let ended = fitted(rt.alloc(), AT_800, false)?;
    assert_ended(&rt, &ended, Status::Refused, "", "rp: t.csv: OwnLevels\n");
    Ok(())
}

/// A text of the first worked certificate, what stands in its place, and the verdict.
const CHANGED: &[(&str, &str, &str)] = &[
    (
        "\"garp\":\"2\"",
        "\"garp\":\"1\"",
        "rejected item 1 Number place 1\n",
    ),
    ("\"4/5\"", "\"3/5\"", "rejected item 2 NotWeak place 1\n"),
    (
        "\"most\":\"1\"",
        "\"most\":\"2\"",
        "rejected item 3 Bound place 0\n",
    ),
    (
        "\"kept\":[1]",
        "\"kept\":[3]",
        "rejected item 3 Number place 1\n",
    ),
    (
        "219902325555",
        "219902325556",
        "rejected item 4 Dual place 1\n",
    ),
    (
        "43980465111",
        "43980465112",
        "rejected item 5 Dual place 1\n",
    ),
    (
        "\"cost\":\"1\"",
        "\"cost\":\"0\"",
        "rejected item 6 Bound place 0\n",
    ),
    (
        "\"num\":\"1\"",
        "\"num\":\"2\"",
        "rejected item 7 Bound place 0\n",
    ),
    (
        "\"num\":\"4\"",
        "\"num\":\"5\"",
        "rejected item 8 Bound place 0\n",
    ),
    (
        "879609302221",
        "879609302220",
        "rejected item 9 Bound place 0\n",
    ),
];

/// Asserts what the checker says where a number of a certificate is changed.
fn assert_changed(
    rt: &impl Abort,
    alloc: Global,
    cases: &[(&str, &str, &str)],
) -> Result<(), Fail> {
    let (table, _, text, _) = WORKED[0];
    for k in 0..cases.len() {
        let (old, new, verdict) = cases[k];
        let changed = text.replace(alloc, old, new)?;
        let ended = checked(alloc, table, changed.as_str())?;
        assert_ended(rt, &ended, Status::Rejected, verdict, "");
    }
    Ok(())
}

#[test]
fn changed_certificates_are_rejected(rt: HostRuntime) -> Result<(), Fail> {
    assert_changed(&rt, rt.alloc(), CHANGED)
}

/// Words, the writes that fail, the exit code, and the error message with its hint.
const HINTED: &[(&[&str], &[u64], Status, &str)] = &[
    (
        &["rp-wide", "checkfit", "levels.csv", "none.json"],
        &[],
        Status::Refused,
        "rp: levels.csv: OwnLevels\nhint: This command does not take efficiency levels of observations. \
        Leave out the column e.\n",
    ),
    (
        &["rp-wide", "checkfit", "t.csv", "none.json"],
        &[1],
        Status::WriteFault,
        "rp: write failed\nhint: The result could not be written completely. Make room on the disk, or keep the pipe \
        open.\n",
    ),
];

/// Asserts the error messages where hints are wanted.
fn assert_hinted(
    rt: &impl Abort,
    alloc: Global,
    cases: &[(&[&str], &[u64], Status, &str)],
) -> Result<(), Fail> {
    for k in 0..cases.len() {
        let (words, failing, status, err) = cases[k];
        let ended = run_over(alloc, words, true, FILES, failing)?;
        assert_ended(rt, &ended, status, "", err);
    }
    Ok(())
}

#[test]
fn hints_follow(rt: HostRuntime) -> Result<(), Fail> {
    assert_hinted(&rt, rt.alloc(), HINTED)
}
