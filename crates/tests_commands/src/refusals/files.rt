//! Files beside a table that are refused.
use rp_commands::Status;
use std::alloc::Global;
use std::test::Fail;
use tests_inputs::tables::{APART, CONTRADICTION, MORE_AND_LESS};
use tests_support::{ends, filled, refuses, run_with_failures, tells};

/// Two technologies of two factors.
const FIRM: &str = "y,p,w_a,w_b,x_a,x_b\n1,5,1,2,2,1\n2,4,2,1,2,2\n";

const COST: &[&str] = &["rp", "cost", "t.csv", "n.csv"];

const DEMAND: &[&str] = &["rp", "demand", "t.csv", "n.csv"];

const WELFARE: &[&str] = &["rp", "welfare", "t.csv", "n.csv"];

const UTILITY: &[&str] = &["rp", "utility", "t.csv", "b.csv"];

/// Technologies, and the fault of each.
const TECHNOLOGIES: &[(&str, &str)] = &[
    ("w_a,x_a\n1,1\n", "rp: t.csv: Unpaired column 0\n"),
    ("p_a,q_a\n1,1\n", "rp: t.csv: BadHeader column 1\n"),
    ("y,w_a,x_a\n1,1,0\n", "rp: t.csv: ZeroBundle record 1\n"),
];

#[test]
fn a_fault_of_the_technology_is_told_before_the_asked_file(rt: HostRuntime) -> Result<(), Fail> {
    for (tech, line) in TECHNOLOGIES {
        refuses(rt.alloc(), COST, &[("t.csv", tech)], line)?;
        let files = &[("t.csv", *tech), ("n.csv", "w_c,y\n1,1\n")];
        refuses(rt.alloc(), COST, files, line)?;
    }
    Ok(())
}

/// Words, a first file that is none of their faults, and a second one with its fault.
const SECOND_FILES: &[(&[&str], &str, &str, &str)] = &[
    (
        COST,
        FIRM,
        "w_a,w_c,y\n1,1,1\n",
        "rp: n.csv: OtherGoods column 2\n",
    ),
    (
        COST,
        FIRM,
        "w_a,w_b\n1,1\n",
        "rp: n.csv: Unpaired column 0\n",
    ),
    (
        COST,
        FIRM,
        "w_a,w_b,y\n1,1,0.5\n",
        "rp: n.csv: TooFine record 1 column 3\n",
    ),
    (
        COST,
        FIRM,
        "w_a,w_b,y\n1,0,1\n",
        "rp: n.csv: ZeroPrice record 1 column 2\n",
    ),
    (
        DEMAND,
        APART,
        "p_a,p_b,m\n1,1,0\n",
        "rp: n.csv: ZeroBundle record 1\n",
    ),
    (
        DEMAND,
        APART,
        "p_a,p_b,m\n1,1,3.5\n",
        "rp: n.csv: TooFine record 1 column 3\n",
    ),
    (
        DEMAND,
        APART,
        "p_a,p_b\n1,1\n",
        "rp: n.csv: Unpaired column 0\n",
    ),
    (
        WELFARE,
        APART,
        "p_a,p_b,m\n1,1,3\n",
        "rp: n.csv: BadHeader column 3\n",
    ),
    (
        WELFARE,
        APART,
        "p_a,p_b\n1,0\n",
        "rp: n.csv: ZeroPrice record 1 column 2\n",
    ),
];

#[test]
fn faults_of_a_second_file_are_told_with_it(rt: HostRuntime) -> Result<(), Fail> {
    for (words, first, second, line) in SECOND_FILES {
        refuses(
            rt.alloc(),
            words,
            &[("t.csv", *first), ("n.csv", second)],
            line,
        )?;
    }
    Ok(())
}

const OTHER_GOODS: &str = "q_a,q_c\n1,1\n";

/// One bundle more than there may be.
const MANY: &str =
    "q_a,q_b\n1,1\n1,1\n1,1\n1,1\n1,1\n1,1\n1,1\n1,1\n1,1\n1,1\n1,1\n1,1\n1,1\n1,1\n1,1\n1,1\n1,1\n";

/// Bundles, and the fault of each.
const BUNDLES: &[(&str, &str)] = &[
    (OTHER_GOODS, "rp: b.csv: OtherGoods column 2\n"),
    ("q_a,q_b\n1,0.5\n", "rp: b.csv: TooFine record 1 column 2\n"),
    (MANY, "rp: b.csv: TooManyRecords\n"),
];

#[test]
fn faults_of_the_bundles_are_told_with_their_file(rt: HostRuntime) -> Result<(), Fail> {
    for (bundles, line) in BUNDLES {
        let files = &[("t.csv", MORE_AND_LESS), ("b.csv", *bundles)];
        refuses(rt.alloc(), UTILITY, files, line)?;
    }
    Ok(())
}

#[test]
fn a_fault_of_the_table_is_told_before_the_bundles_are_read(rt: HostRuntime) -> Result<(), Fail> {
    let line = "rp: t.csv: NoRecords\n";
    refuses(rt.alloc(), UTILITY, &[("t.csv", "p_a,q_a\n")], line)?;
    let files = &[("t.csv", "p_a,q_a\n"), ("b.csv", OTHER_GOODS)];
    refuses(rt.alloc(), UTILITY, files, line)
}

/// Words, the files that are there, and the one that is missed.
const MISSING: &[(&[&str], &[(&str, &str)], &str)] = &[
    (
        &["rp", "pairs", "no.csv"],
        &[("t.csv", CONTRADICTION)],
        "rp: no.csv: read failed\n",
    ),
    (COST, &[("t.csv", FIRM)], "rp: n.csv: read failed\n"),
    (
        UTILITY,
        &[("b.csv", OTHER_GOODS)],
        "rp: t.csv: read failed\n",
    ),
    (
        UTILITY,
        &[("t.csv", MORE_AND_LESS)],
        "rp: b.csv: read failed\n",
    ),
];

#[test]
fn a_file_that_is_missing_is_named(rt: HostRuntime) -> Result<(), Fail> {
    for (words, files, line) in MISSING {
        ends(rt.alloc(), words, files, Status::ReadFault, "", line)?;
    }
    Ok(())
}

#[test]
fn a_file_whose_read_fails_is_named(rt: HostRuntime) -> Result<(), Fail> {
    let files = &[("t.csv", MORE_AND_LESS), ("b.csv", "q_a,q_b\n1,1\n")];
    for (number, line) in [
        (1, "rp: t.csv: read failed\n"),
        (3, "rp: b.csv: read failed\n"),
    ] {
        let got = run_with_failures(rt.alloc(), UTILITY, files, &[number], &[])?;
        assert!(rt;
            tells(&got, Status::ReadFault, line),
            "{} {}",
            got.out,
            got.err
        );
    }
    Ok(())
}

#[test]
fn a_write_that_fails_is_told(rt: HostRuntime) -> Result<(), Fail> {
    let files = &[("t.csv", CONTRADICTION)];
    let got = run_with_failures(rt.alloc(), &["rp", "pairs", "t.csv"], files, &[], &[1])?;
    assert!(rt;
        tells(&got, Status::WriteFault, "rp: write failed\n"),
        "{}",
        got.err
    );
    Ok(())
}

/// Words over a first file and a second one of line feeds.
const OVER_FEEDS: &[(&[&str], &str, &str)] = &[
    (COST, FIRM, "n.csv"),
    (DEMAND, APART, "n.csv"),
    (WELFARE, APART, "n.csv"),
    (UTILITY, MORE_AND_LESS, "b.csv"),
];

/// The words over this first file and a second one of this name are refused for the second, with that fault.
fn refuses_second(
    alloc: Global,
    words: &[&str],
    first: &str,
    name: &str,
    second: &str,
    fault: &str,
) -> Result<(), Fail> {
    let line = format!(in alloc; "rp: {name}: {fault}\n")?;
    refuses(
        alloc,
        words,
        &[("t.csv", first), (name, second)],
        line.as_str(),
    )
}

/// Line feeds alone are no record; with a byte past the limit a file is not looked at.
#[test]
fn second_files_of_the_most_bytes_and_of_one_more(rt: HostRuntime) -> Result<(), Fail> {
    for (size, fault) in [(4_194_304, "Empty"), (4_194_305, "TooLong")] {
        let feeds = filled(rt.alloc(), b'\n', size)?;
        for (words, first, name) in OVER_FEEDS {
            refuses_second(rt.alloc(), words, first, name, feeds.as_str(), fault)?;
        }
    }
    Ok(())
}

#[test]
fn technologies_of_the_most_bytes_and_of_one_more(rt: HostRuntime) -> Result<(), Fail> {
    for (size, line) in [
        (4_194_304, "rp: t.csv: Empty\n"),
        (4_194_305, "rp: t.csv: TooLong\n"),
    ] {
        let feeds = filled(rt.alloc(), b'\n', size)?;
        let files = &[("t.csv", feeds.as_str()), ("n.csv", feeds.as_str())];
        refuses(rt.alloc(), COST, files, line)?;
    }
    Ok(())
}
