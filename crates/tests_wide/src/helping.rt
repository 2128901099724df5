//! Tests of the program `rp-wide` over files in memory: its pages, and its hints and notes on standard error.
use crate::runs::{owned_files, owned_words};
use rp_commands::Status;
use rp_outside::{MemDesk, MemSink};
use rp_run_wide::run_wide_with_help;
use std::alloc::Global;
use std::process::Abort;
use std::test::Fail;
use tests_inputs::tables::CONTRADICTION;

/// The room of each sink, in bytes.
const ROOM: u64 = 65_536;

/// What a call did.
#[derive(Drop)]
struct Ended {
    status: Status,
    out: String,
    err: String,
}

/// Runs words over files, with the writes of these numbers failing.
fn run_over(
    alloc: Global,
    words: &[&str],
    files: &[(&str, &str)],
    failing: &[u64],
) -> Result<Ended, Fail> {
    let all = owned_words(alloc, words)?;
    let mut desk = MemDesk::new(owned_files(alloc, files)?, Vec::new(alloc));
    let mut out = MemSink::new(alloc, ROOM, Vec::from_slice(alloc, failing)?)?;
    let mut err = MemSink::new(alloc, ROOM, Vec::new(alloc))?;
    let status = run_wide_with_help(alloc, &all, &mut desk, &mut out, &mut err);
    Ok(Ended {
        status,
        out: String::from_utf8_lossy(alloc, out.written())?,
        err: String::from_utf8_lossy(alloc, err.written())?,
    })
}

/// A table, a table with a number that is none, and a certificate without items.
const FILES: &[(&str, &str)] = &[
    ("t.csv", CONTRADICTION),
    ("bad: name.csv", "p_a,q_a\n1,x\n"),
    (
        "none.json",
        "{\"items\":[],\"kind\":\"table\",\"version\":1}\n",
    ),
    (
        "cycle.json",
        "{\"items\":[{\"cycle\":[1,2,1],\"item\":\"garp\"}],\"kind\":\"table\",\"version\":1}\n",
    ),
    (
        "ranks.json",
        "{\"items\":[{\"item\":\"garp\",\"ranks\":[1,1]}],\"kind\":\"table\",\"version\":1}\n",
    ),
];

/// Words, the status, the output, and standard error.
const ENDINGS: &[(&[&str], Status, &str, &str)] = &[
    (
        &["rp-wide", "--version"],
        Status::Done,
        "rp-wide 0.17.0\n",
        "",
    ),
    (
        &["rp-wide", "pairs", "t.csv"],
        Status::Done,
        "pair 1 2\n",
        "",
    ),
    (
        &["rp-wide", "pairs", "bad: name.csv"],
        Status::Refused,
        "",
        "rp: bad: name.csv: BadNumber record 1 column 2\n\
        hint: This field is not a number, or not an integer where an integer is needed. \
        Write digits with a decimal point, without a sign, an exponent or a thousands separator.\n",
    ),
    (
        &["rp-wide", "pairs", "other.csv"],
        Status::ReadFault,
        "",
        "rp: other.csv: read failed\n\
        hint: The file does not exist, or it could not be read. \
        Check its name and its folder, and that you may read it.\n",
    ),
    (
        &["rp-wide", "check", "t.csv", "none.json"],
        Status::Done,
        "accepted items 0 withheld 0\n",
        "note: The certificate has no items, so nothing is proved.\n",
    ),
    (
        &["rp-wide", "check", "t.csv", "cycle.json"],
        Status::Done,
        "accepted items 1 withheld 0\n",
        "note: Each item proves its result for exactly these data; a value that is left out is not \
        proved. rp-wide check --help and checkrandom --help say what each kind of item proves.\n",
    ),
    (
        &["rp-wide", "check", "t.csv", "ranks.json"],
        Status::Rejected,
        "rejected item 1 Order place 1\n",
        "",
    ),
];

#[test]
fn endings(rt: HostRuntime) -> Result<(), Fail> {
    for (words, status, out, err) in ENDINGS {
        let ended = run_over(rt.alloc(), words, FILES, &[])?;
        assert!(rt; ended.status == *status);
        assert!(rt; ended.out.as_str() == *out, "{}", ended.out);
        assert!(rt; ended.err.as_str() == *err, "{}", ended.err);
    }
    Ok(())
}

/// The commands, and the page of each.
const PAGES: [(&str, &str); 17] = [
    ("pairs", "usage: rp-wide pairs TABLE\n"),
    ("analyse", "usage: rp-wide analyse TABLE\n"),
    ("certify", "usage: rp-wide certify TABLE\n"),
    ("check", "usage: rp-wide check TABLE CERT\n"),
    ("demand", "usage: rp-wide demand TABLE NEW [--json]\n"),
    ("welfare", "usage: rp-wide welfare TABLE NEW [--json]\n"),
    ("utility", "usage: rp-wide utility TABLE BUNDLES\n"),
    (
        "random",
        "usage: rp-wide random BUDGETS CHOICES [--per N] [--json]\n",
    ),
    (
        "checkrandom",
        "usage: rp-wide checkrandom BUDGETS CHOICES CERT [--per N]\n",
    ),
    (
        "patches",
        "usage: rp-wide patches BUDGETS CHOICES [--per N]\n",
    ),
    ("trial", "usage: rp-wide trial SEED ROWS GOODS\n"),
    ("menus", "usage: rp-wide menus FILE [--per N]\n"),
    ("pump", "usage: rp-wide pump TABLE\n"),
    ("cost", "usage: rp-wide cost TECH NEW\n"),
    ("power", "usage: rp-wide power TABLE SEED N\n"),
    ("fit", "usage: rp-wide fit TABLE [--json]\n"),
    ("checkfit", "usage: rp-wide checkfit TABLE CERT\n"),
];

#[test]
fn each_command_has_a_page(rt: HostRuntime) -> Result<(), Fail> {
    let top = run_over(rt.alloc(), &["rp-wide", "--help"], &[], &[])?;
    assert!(rt; top.status == Status::Done && top.err.as_str().is_empty());
    assert!(rt; top.out.as_str().contains("\nusage: rp-wide pairs TABLE\n"));
    let check = run_over(rt.alloc(), &["rp-wide", "check", "--help"], &[], &[])?;
    assert!(rt; check.out.as_str().contains("What an accepted item proves"));
    for (command, usage) in PAGES {
        let page = run_over(rt.alloc(), &["rp-wide", command, "--help"], &[], &[])?;
        assert!(rt; page.status == Status::Done && page.err.as_str().is_empty());
        assert!(rt; page.out.as_str().starts_with(usage), "{command}");
    }
    Ok(())
}

/// Words that ask for no page.
const OTHERS: [&[&str]; 5] = [
    &["rp-wide"],
    &["rp-wide", "help"],
    &["rp-wide", "--help", "pairs"],
    &["rp-wide", "pair", "--help"],
    &["rp-wide", "pairs", "--version"],
];

#[test]
fn a_hint_follows_the_usage(rt: HostRuntime) -> Result<(), Fail> {
    for words in OTHERS {
        let ended = run_over(rt.alloc(), words, &[], &[])?;
        assert!(rt; ended.status == Status::Usage && ended.out.as_str().is_empty());
        assert!(rt;
            ended
                .err
                .as_str()
                .starts_with("usage: rp-wide pairs TABLE\n")
        );
        assert!(rt;
            ended.err.as_str().ends_with(
                "rp-wide power TABLE SEED N\n       rp-wide fit TABLE [--json]\n       rp-wide checkfit TABLE CERT\n       rp-wide random BUDGETS CHOICES --steps N [--per N] [--json]\nhint: The words are not a command of this program, \
                or a number is out of range. Run the program with --help to see its commands.\n"
            )
        );
    }
    Ok(())
}

#[test]
fn a_hint_follows_a_failed_write(rt: HostRuntime) -> Result<(), Fail> {
    let told = "rp: write failed\nhint: The result could not be written completely. \
                Make room on the disk, or keep the pipe open.\n";
    let calls: [&[&str]; 2] = [&["rp-wide", "--version"], &["rp-wide", "pairs", "t.csv"]];
    for words in calls {
        let ended = run_over(rt.alloc(), words, FILES, &[1])?;
        assert!(rt; ended.status == Status::WriteFault && ended.out.as_str().is_empty());
        assert!(rt; ended.err.as_str() == told);
    }
    Ok(())
}
