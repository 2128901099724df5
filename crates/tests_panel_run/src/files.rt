//! Tests of what a file is refused for, of calls that fail, and of the columns that are left out.
use crate::running::{CALM, Failures, assert_ended, ends, run_failing, writes};
use rp_panel_run::Status;
use std::alloc::Global;
use std::test::Fail;

/// Words, a file, and the line that refuses it.
type Refusal<'a> = (&'a [&'a str], &'a str, &'a str);

const PLAIN: &[&str] = &["l.csv"];

const REFUSED: &[Refusal<'static>] = &[
    (PLAIN, "", "rp-panel: l.csv: Empty\n"),
    (
        PLAIN,
        "who,p_a,q_a\nA,1,2\n",
        "rp-panel: l.csv: NoIdColumn\n",
    ),
    (PLAIN, "household,p_a,q_a\n", "rp-panel: l.csv: NoRecords\n"),
    (
        PLAIN,
        "household,p_a,q_a\nA,1,2\nA,1\n",
        "rp-panel: l.csv: Ragged record 2\n",
    ),
    (
        PLAIN,
        "household,p_a,q_a,p_a\nA,1,2,1\n",
        "rp-panel: l.csv: TwiceNamed column 4\n",
    ),
    (
        &["l.csv", "--keep", "p_a", "--keep", "town"],
        "household,p_a,q_a\nA,1,2\n",
        "rp-panel: l.csv: NoKeptColumn name 2\n",
    ),
    (
        &["l.csv", "--id", "who"],
        "household,p_a,q_a\nA,1,2\n",
        "rp-panel: l.csv: NoIdColumn\n",
    ),
];

#[test]
fn files_with_a_fault_are_refused(rt: HostRuntime) -> Result<(), Fail> {
    for (words, text, line) in REFUSED {
        ends(rt.alloc(), words, text, Status::Refused, "", line)?;
    }
    Ok(())
}

const ONE: &str = "household,p_a,q_a\nA,3,2\n";

const ROW: &str = "A,1,1,holds,1,1.000000,yes,holds,holds,,,,,,\n";

/// A file of so many bytes: these records, and empty lines.
pub(crate) fn file_of_size(alloc: Global, records: &str, size: usize) -> Result<String, Fail> {
    let mut bytes = vec![in alloc; b'\n'; size]?;
    let front = records.len().min(size);
    bytes[..front].copy_from_slice(&records.as_bytes()[..front]);
    Ok(String::from_utf8(bytes)?)
}

#[test]
fn as_many_bytes_as_the_limit(rt: HostRuntime) -> Result<(), Fail> {
    let text = file_of_size(rt.alloc(), ONE, 67_108_864)?;
    writes(rt.alloc(), PLAIN, text.as_str(), "", ROW, "")
}

#[test]
fn one_byte_more_than_the_limit(rt: HostRuntime) -> Result<(), Fail> {
    let text = file_of_size(rt.alloc(), ONE, 67_108_865)?;
    let line = "rp-panel: l.csv: TooLong\n";
    ends(rt.alloc(), PLAIN, text.as_str(), Status::Refused, "", line)
}

/// The first write of the output fails.
const FIRST_WRITE: Failures<'static> = Failures {
    reads: &[],
    writes: &[1],
    tellings: &[],
};

/// The first write to standard error fails.
const FIRST_TELLING: Failures<'static> = Failures {
    reads: &[],
    writes: &[],
    tellings: &[1],
};

/// These reads fail.
fn reading(reads: &[u64]) -> Failures<'_> {
    Failures {
        reads,
        writes: &[],
        tellings: &[],
    }
}

/// The words over the file of one household end so where these calls fail.
fn fails_so(
    alloc: Global,
    words: &[&str],
    fails: Failures<'_>,
    status: Status,
    err: &str,
) -> Result<(), Fail> {
    let got = run_failing(alloc, words, ONE, fails)?;
    assert_ended(alloc, words, &got, status, "", err)
}

#[test]
fn a_file_that_is_not_there(rt: HostRuntime) -> Result<(), Fail> {
    let line = "rp-panel: other.csv: read failed\n";
    fails_so(rt.alloc(), &["other.csv"], CALM, Status::ReadFault, line)
}

/// The second read finds the end of the file.
#[test]
fn reads_that_fail(rt: HostRuntime) -> Result<(), Fail> {
    let line = "rp-panel: l.csv: read failed\n";
    for reads in [&[1u64], &[2u64]] {
        fails_so(rt.alloc(), PLAIN, reading(reads), Status::ReadFault, line)?;
    }
    Ok(())
}

#[test]
fn a_write_that_fails(rt: HostRuntime) -> Result<(), Fail> {
    let line = "rp-panel: write failed\n";
    fails_so(rt.alloc(), PLAIN, FIRST_WRITE, Status::WriteFault, line)
}

/// Columns that are left out are told before the table is written.
#[test]
fn a_write_that_fails_after_columns_are_told(rt: HostRuntime) -> Result<(), Fail> {
    let alloc = rt.alloc();
    let text = "household,year,p_a,q_a\nA,1990,3,2\n";
    let told = "rp-panel: column year is left out\nrp-panel: write failed\n";
    let got = run_failing(alloc, PLAIN, text, FIRST_WRITE)?;
    assert_ended(alloc, PLAIN, &got, Status::WriteFault, "", told)
}

/// What is told changes no status.
#[test]
fn tellings_that_fail(rt: HostRuntime) -> Result<(), Fail> {
    fails_so(
        rt.alloc(),
        &["other.csv"],
        FIRST_TELLING,
        Status::ReadFault,
        "",
    )?;
    fails_so(rt.alloc(), &[], FIRST_TELLING, Status::Usage, "")
}

/// Every kind of column beside those of the ids and of a table.
const MANY: &str =
    "year,household,obs,p_a, town ,q_a,note,e\n1990,A,1,3,x,2,,1\n1991,A,2,3,y,2,z,1\n";

const MANY_ROW: &str = "A,2,1,holds,1,1.000000,yes,holds,holds,,,,,,";

#[test]
fn columns_that_are_left_out_are_told(rt: HostRuntime) -> Result<(), Fail> {
    let alloc = rt.alloc();
    let lines = format!(in alloc; "{MANY_ROW}\n")?;
    let told = "rp-panel: column year is left out\nrp-panel: column town is left out\n\
        rp-panel: column note is left out\n";
    writes(alloc, PLAIN, MANY, "", lines.as_str(), told)
}

#[test]
fn columns_that_are_kept_are_not_left_out(rt: HostRuntime) -> Result<(), Fail> {
    let alloc = rt.alloc();
    let words = &["l.csv", "--keep", "town", "--keep", "year"];
    let lines = format!(in alloc; "{MANY_ROW},x,1990\n")?;
    let told = "rp-panel: column note is left out\n";
    writes(alloc, words, MANY, ",town,year", lines.as_str(), told)
}

/// The column of ids may have any name, and then `household` is a column like any other.
#[test]
fn the_column_of_ids_is_not_left_out(rt: HostRuntime) -> Result<(), Fail> {
    let words = &["l.csv", "--id", "who"];
    let text = "who,household,p_a,q_a\nA,1,3,2\n";
    let told = "rp-panel: column household is left out\n";
    writes(rt.alloc(), words, text, "", ROW, told)
}
