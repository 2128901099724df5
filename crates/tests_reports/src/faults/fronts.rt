//! Each front of a file.
use rp_commands::Status;
use std::alloc::Global;
use std::process::Abort;
use std::test::Fail;
use tests_inputs::tables::{CERTIFICATE, CONTRADICTION};
use tests_support::{CALM, CHECK, is_ended, run_in_pieces};

/// The words over these files in whole pieces end so.
fn ends_over(
    rt: &impl Abort,
    alloc: Global,
    words: &[&str],
    files: &[(&str, &str)],
    status: Status,
    out: &str,
    err: &str,
) -> Result<(), Fail> {
    let got = run_in_pieces(alloc, words, files, CALM, CALM, CALM)?;
    assert!(rt;
        is_ended(&got, status, out, err),
        "{files:?} {} {}",
        got.out,
        got.err
    );
    Ok(())
}

/// `pairs` over the first bytes of the worked table ends so.
fn pairs_ends(
    rt: &impl Abort,
    alloc: Global,
    kept: usize,
    status: Status,
    out: &str,
    err: &str,
) -> Result<(), Fail> {
    let Some(front) = CONTRADICTION.get(..kept) else {
        return Err("past the end".into());
    };
    ends_over(
        rt,
        alloc,
        &["rp", "pairs", "t.csv"],
        &[("t.csv", front)],
        status,
        out,
        err,
    )
}

/// The first and the last length of fronts, and what these are refused for.
const REFUSED_FRONTS: &[(usize, usize, &str)] = &[
    (0, 0, "Empty"),
    (1, 2, "BadHeader column 1"),
    (3, 3, "Unpaired column 1"),
    (4, 6, "BadHeader column 2"),
    (7, 7, "NoRecords"),
    (8, 10, "BadHeader column 3"),
    (11, 11, "Unpaired column 3"),
    (12, 14, "BadHeader column 4"),
    (15, 16, "NoRecords"),
    (17, 21, "Ragged record 1"),
    (22, 22, "BadNumber record 1 column 4"),
    (25, 29, "Ragged record 2"),
    (30, 30, "BadNumber record 2 column 4"),
];

#[test]
fn each_front_of_a_table_that_is_refused(rt: HostRuntime) -> Result<(), Fail> {
    let alloc = rt.alloc();
    assert!(rt; CONTRADICTION.len() == 32);
    for (from, to, fault) in REFUSED_FRONTS {
        let line = format!(in alloc; "rp: t.csv: {fault}\n")?;
        for kept in *from..(*to).saturating_add(1) {
            pairs_ends(&rt, alloc, kept, Status::Refused, "", line.as_str())?;
        }
    }
    Ok(())
}

#[test]
fn each_front_of_a_table_that_is_read(rt: HostRuntime) -> Result<(), Fail> {
    for (kept, out) in [
        (23, "pair none\n"),
        (24, "pair none\n"),
        (31, "pair 1 2\n"),
        (32, "pair 1 2\n"),
    ] {
        pairs_ends(&rt, rt.alloc(), kept, Status::Done, out, "")?;
    }
    Ok(())
}

/// `check` over the first bytes of the worked certificate ends so.
fn check_ends(
    rt: &impl Abort,
    alloc: Global,
    kept: usize,
    status: Status,
    out: &str,
    err: &str,
) -> Result<(), Fail> {
    let Some(front) = CERTIFICATE.get(..kept) else {
        return Err("past the end".into());
    };
    let files = &[("t.csv", CONTRADICTION), ("c.json", front)];
    ends_over(rt, alloc, CHECK, files, status, out, err)
}

#[test]
fn each_front_of_a_certificate(rt: HostRuntime) -> Result<(), Fail> {
    assert!(rt; CERTIFICATE.len() == 277);
    for kept in 0..276 {
        let line = "rp: c.json: NotJson\n";
        check_ends(&rt, rt.alloc(), kept, Status::Refused, "", line)?;
    }
    // without its line feed, and whole
    for kept in [276, 277] {
        let accepted = "accepted items 5 withheld 0\n";
        check_ends(&rt, rt.alloc(), kept, Status::Done, accepted, "")?;
    }
    Ok(())
}
