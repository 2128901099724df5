//! Tests of bounds at the new prices of a second file: what is printed, and what of the two files is refused or fails.
use crate::files::file_of_size;
use crate::running::{CALM, Ended, Failures, assert_ended, run_beside};
use rp_panel_run::Status;
use std::alloc::Global;
use std::test::Fail;

pub(crate) const DEMAND_HEADER: &str =
    "household,observations,goods,price,good,lower,lower_floor,upper,upper_ceiling,\
    fault,record,column\n";

const WELFARE_HEADER: &str =
    "household,observations,goods,price,observation,lower,lower_floor,upper,upper_ceiling,\
    fault,record,column\n";

/// `B` contradicts itself, the third record has no id, and `C` is at fault; and new prices.
pub(crate) const FILES: (&str, &str) = (
    "household,town,p_a,q_a,p_b,q_b\n\
    A,x,1,2,2,1\nB,y,1,1,2,2\n,z,9,9,9,9\nA,y,2,1,1,2\nC,x,1,x,1,1\nB,x,2,2,1,1\n",
    "p_a,p_b,m\n1,1,3\n",
);

/// What is told of them.
const TOLD: &str = "rp-panel: column town is left out\n";

pub(crate) const DEMANDS: &str = "A,2,2,1,a,1,1.000000,2,2.000000,,,\n\
    A,2,2,1,b,1,1.000000,2,2.000000,,,\n\
    B,2,2,1,a,violated,,violated,,,,\n\
    B,2,2,1,b,violated,,violated,,,,\n\
    C,,,,,,,,,BadNumber,5,4\n\
    ,,,,,,,,,NoId,3,\n";

/// The purchases of one household, and what it costs to be as well off at other prices.
const LADDER: (&str, &str) = (
    "who,p_a,q_a,p_b,q_b\nA,1,4,1,4\nA,1,2,1,2\n",
    "p_a,p_b\n0.1,0.2\n",
);

const WELFARES: &str = "A,2,2,1,1,4/5,0.800000,6/5,1.200000,,,\n\
    A,2,2,1,2,2/5,0.400000,3/5,0.600000,,,\n";

/// The words over the two files, where nothing fails.
fn run_bounds(alloc: Global, words: &[&str], files: (&str, &str)) -> Result<Ended, Fail> {
    let (long, new) = files;
    run_beside(alloc, words, long, Some(new), CALM)
}

/// The words over the two files write these texts, and tell that.
fn writes(
    alloc: Global,
    words: &[&str],
    files: (&str, &str),
    texts: (&str, &str),
    told: &str,
) -> Result<(), Fail> {
    let (header, lines) = texts;
    let out = format!(in alloc; "{header}{lines}")?;
    let got = run_bounds(alloc, words, files)?;
    assert_ended(alloc, words, &got, Status::Done, out.as_str(), told)
}

const ASKED: &[&str] = &["l.csv", "--demand", "n.csv"];

#[test]
fn bounds_on_demand(rt: HostRuntime) -> Result<(), Fail> {
    let texts = (DEMAND_HEADER, DEMANDS);
    writes(rt.alloc(), ASKED, FILES, texts, TOLD)
}

#[test]
fn bounds_on_the_money_metric(rt: HostRuntime) -> Result<(), Fail> {
    let texts = (WELFARE_HEADER, WELFARES);
    let one = &["l.csv", "--id", "who", "--welfare", "n.csv"];
    writes(rt.alloc(), one, LADDER, texts, "")?;
    let other = &["l.csv", "--welfare", "n.csv", "--id", "who"];
    writes(rt.alloc(), other, LADDER, texts, "")
}

#[test]
fn columns_that_are_kept(rt: HostRuntime) -> Result<(), Fail> {
    let words = &["l.csv", "--demand", "n.csv", "--keep", "town"];
    let files = ("household,town,p_a,q_a\nA,x,3,2\n", "m,p_a\n5,3\n");
    let header = "household,observations,goods,price,good,lower,lower_floor,upper,upper_ceiling,\
        fault,record,column,town\n";
    let texts = (header, "A,1,1,1,a,5/3,1.666666,5/3,1.666667,,,,x\n");
    writes(rt.alloc(), words, files, texts, "")
}

/// A fault of the new prices beside a household's table stands in its row, and refuses nothing.
#[test]
fn new_prices_with_a_fault(rt: HostRuntime) -> Result<(), Fail> {
    let files = ("household,p_a,q_a\nA,3,2\nB,3,2.5\n", "m,p_a\n5.5,3\n");
    let lines = "A,,,,,,,,,NEW: TooFine,1,1\nB,1,1,1,a,11/6,1.833333,11/6,1.833334,,,\n";
    writes(rt.alloc(), ASKED, files, (DEMAND_HEADER, lines), "")?;
    let empty = ("household,p_a,q_a\nA,3,2\n", "");
    let lines = "A,,,,,,,,,NEW: Empty,,\n";
    writes(rt.alloc(), ASKED, empty, (DEMAND_HEADER, lines), "")
}

/// A household whose programs for bounds on demand pass their width, what is stated of it, and what is found. The demands
/// that keep the axiom when 10,000,000 is spent at these prices are those of which the first observation cannot have been
/// preferred, so at least 20,000,002 at its prices.
const WITHHELD: (&str, &str) = (
    "household,p_a,q_a,p_b,q_b,p_c,q_c\n\
    A,9999999,2,1,2,1,2\nA,1,1,9999991,1,1,1\nA,1,1,1,1,9999973,1\n",
    "p_a,p_b,p_c,m\n1,1,1,10000000\n",
);

const STATED: &str = "A,3,3,1,a,withheld,,10000000,10000000.000000,,,\n\
    A,3,3,1,b,withheld,,withheld,,,,\nA,3,3,1,c,withheld,,withheld,,,,\n";

const FILLED: &str = "A,3,3,1,a,5000001/4999999,1.000000,10000000,10000000.000000,,,\n\
    A,3,3,1,b,0,0.000000,49999984999999/4999999,9999999.000000,,,\n\
    A,3,3,1,c,0,0.000000,49999984999999/4999999,9999999.000000,,,\n";

#[test]
fn what_is_withheld_is_filled_where_that_is_asked(rt: HostRuntime) -> Result<(), Fail> {
    let alloc = rt.alloc();
    writes(alloc, ASKED, WITHHELD, (DEMAND_HEADER, STATED), "")?;
    let before = &["l.csv", "--wide", "--demand", "n.csv"];
    writes(alloc, before, WITHHELD, (DEMAND_HEADER, FILLED), "")?;
    let after = &["l.csv", "--demand", "n.csv", "--wide"];
    writes(alloc, after, WITHHELD, (DEMAND_HEADER, FILLED), "")
}

/// The two names may be the same.
#[test]
fn a_file_beside_itself(rt: HostRuntime) -> Result<(), Fail> {
    let words = &["l.csv", "--demand", "l.csv"];
    let files = ("household,p_a,q_a\nA,3,2\n", "");
    let lines = "A,,,,,,,,,NEW: BadHeader,,1\n";
    writes(rt.alloc(), words, files, (DEMAND_HEADER, lines), "")
}

/// The words over the two files end so, and nothing is written.
fn ends(
    alloc: Global,
    files: (&str, Option<&str>),
    fails: Failures<'_>,
    status: Status,
    told: &str,
) -> Result<(), Fail> {
    let (long, new) = files;
    let got = run_beside(alloc, ASKED, long, new, fails)?;
    assert_ended(alloc, ASKED, &got, status, "", told)
}

#[test]
fn new_prices_that_are_not_there(rt: HostRuntime) -> Result<(), Fail> {
    let told = "rp-panel: n.csv: read failed\n";
    ends(rt.alloc(), (FILES.0, None), CALM, Status::ReadFault, told)
}

/// The long file is looked at first.
#[test]
fn a_long_file_that_is_refused(rt: HostRuntime) -> Result<(), Fail> {
    let told = "rp-panel: l.csv: Unpaired column 0\n";
    let long = "household\nA\n";
    ends(rt.alloc(), (long, None), CALM, Status::Refused, told)
}

/// These reads fail.
fn reading(reads: &[u64]) -> Failures<'_> {
    Failures {
        reads,
        writes: &[],
        tellings: &[],
    }
}

/// Each file has two reads, of which the second finds its end.
#[test]
fn reads_that_fail(rt: HostRuntime) -> Result<(), Fail> {
    let alloc = rt.alloc();
    let files = (FILES.0, Some(FILES.1));
    let long = "rp-panel: l.csv: read failed\n";
    let new = "rp-panel: n.csv: read failed\n";
    for (reads, told) in [
        (&[1u64], long),
        (&[2u64], long),
        (&[3u64], new),
        (&[4u64], new),
    ] {
        ends(alloc, files, reading(reads), Status::ReadFault, told)?;
    }
    Ok(())
}

#[test]
fn a_write_that_fails(rt: HostRuntime) -> Result<(), Fail> {
    let fails = Failures {
        reads: &[],
        writes: &[1],
        tellings: &[],
    };
    let told = "rp-panel: column town is left out\nrp-panel: write failed\n";
    let files = (FILES.0, Some(FILES.1));
    ends(rt.alloc(), files, fails, Status::WriteFault, told)
}

#[test]
fn as_many_bytes_as_the_limit(rt: HostRuntime) -> Result<(), Fail> {
    let new = file_of_size(rt.alloc(), FILES.1, 4_194_304)?;
    let files = (FILES.0, new.as_str());
    writes(rt.alloc(), ASKED, files, (DEMAND_HEADER, DEMANDS), TOLD)
}

#[test]
fn one_byte_more_than_the_limit(rt: HostRuntime) -> Result<(), Fail> {
    let new = file_of_size(rt.alloc(), FILES.1, 4_194_305)?;
    let files = (FILES.0, Some(new.as_str()));
    let told = "rp-panel: n.csv: TooLong\n";
    ends(rt.alloc(), files, CALM, Status::Refused, told)
}
