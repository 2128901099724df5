//! Tests of the words: those that are refused, and what the others ask.
use crate::running::{USAGE, ends, run_over, writes};
use rp_panel_run::Status;
use std::alloc::Global;
use std::process::Abort;
use std::test::Fail;

/// Words that are none that the program takes.
const REFUSED: &[&[&str]] = &[
    &[],
    &[""],
    &["-l.csv"],
    &["--pump"],
    &["l.csv", "l.csv"],
    &["l.csv", "pump"],
    &["l.csv", "--Pump"],
    &["l.csv", "--pump", "--pump"],
    &["l.csv", "--wide", "--wide"],
    &["l.csv", "--intercepts", "--intercepts"],
    &["l.csv", "--intercepts", "--demand", "n.csv"],
    &["l.csv", "--id"],
    &["l.csv", "--id", ""],
    &["l.csv", "--id", "a", "--id", "b"],
    &["l.csv", "--keep"],
    &["l.csv", "--power"],
    &["l.csv", "--power", "10"],
    &["l.csv", "--power", "", "1"],
    &["l.csv", "--power", "0", "1"],
    &["l.csv", "--power", "1001", "1"],
    &["l.csv", "--power", "-1", "1"],
    &["l.csv", "--power", "1", ""],
    &["l.csv", "--power", "1", "x"],
    &["l.csv", "--power", "1", "18446744073709551616"],
    &["l.csv", "--power", "1", "1", "--power", "1", "1"],
    &["l.csv", "--demand"],
    &["l.csv", "--demand", ""],
    &["l.csv", "--welfare", "-n.csv"],
    &["--demand", "n.csv"],
    &["l.csv", "--pump", "l.csv"],
    &["--pump", "l.csv", "m.csv"],
    &["--keep", "l.csv"],
    &["l.csv", "--demand", "n.csv", "--demand", "n.csv"],
    &["l.csv", "--demand", "n.csv", "--welfare", "n.csv"],
    &["l.csv", "--pump", "--demand", "n.csv"],
    &["l.csv", "--demand", "n.csv", "--pump"],
    &["l.csv", "--power", "1", "1", "--welfare", "n.csv"],
    &["l.csv", "--welfare", "n.csv", "--power", "1", "1"],
    &["l.csv", "--wide", "--demand", "n.csv", "--wide"],
];

/// A household whose two purchases contradict each other: each bundle cost 5 where the other would have cost 4.
const CONTRADICTION: &str = "household,p_a,q_a,p_b,q_b\nA,1,1,2,2\nA,2,2,1,1\n";

/// The row of that household, without and with the greatest ratio, which is (1 + 1) / (5 + 5).
const PLAIN: &str = "A,2,2,violated,4/5,0.800000,yes,violated,violated,,,,,,\n";

const PUMPED: &str = "A,2,2,violated,4/5,0.800000,yes,violated,violated,1/5,0.200000,,,,\n";

#[test]
fn words_that_are_none(rt: HostRuntime) -> Result<(), Fail> {
    for words in REFUSED {
        ends(rt.alloc(), words, CONTRADICTION, Status::Usage, "", USAGE)?;
    }
    Ok(())
}

#[test]
fn a_file_alone(rt: HostRuntime) -> Result<(), Fail> {
    writes(rt.alloc(), &["l.csv"], CONTRADICTION, "", PLAIN, "")
}

#[test]
fn the_pump_is_asked(rt: HostRuntime) -> Result<(), Fail> {
    let words = &["l.csv", "--pump"];
    writes(rt.alloc(), words, CONTRADICTION, "", PUMPED, "")
}

#[test]
fn options_before_and_after_the_file(rt: HostRuntime) -> Result<(), Fail> {
    let before = &["--pump", "--id", "household", "l.csv"];
    let around = &["--id", "household", "l.csv", "--pump"];
    writes(rt.alloc(), before, CONTRADICTION, "", PUMPED, "")?;
    writes(rt.alloc(), around, CONTRADICTION, "", PUMPED, "")
}

#[test]
fn options_in_either_order(rt: HostRuntime) -> Result<(), Fail> {
    let one = &["l.csv", "--pump", "--id", "who", "--wide"];
    let other = &["l.csv", "--wide", "--id", "who", "--pump"];
    let text = "who,p_a,q_a,p_b,q_b\nA,1,1,2,2\nA,2,2,1,1\n";
    writes(rt.alloc(), one, text, "", PUMPED, "")?;
    writes(rt.alloc(), other, text, "", PUMPED, "")
}

/// An option's name may be the name that follows one that wants a name.
#[test]
fn names_that_look_like_options(rt: HostRuntime) -> Result<(), Fail> {
    let text = "--pump,p_a,q_a\nA,3,2\n";
    let words = &["l.csv", "--id", "--pump", "--keep", "--pump"];
    let line = "A,1,1,holds,1,1.000000,yes,holds,holds,,,,,,,A\n";
    writes(rt.alloc(), words, text, ",--pump", line, "")
}

/// Whether the words end with a table.
fn is_done(alloc: Global, words: &[&str]) -> Result<bool, Fail> {
    let got = run_over(alloc, words, CONTRADICTION)?;
    Ok(got.status == Status::Done)
}

/// Whether the power is told over so many behaviours.
fn has_power_over(alloc: Global, words: &[&str], ending: &str) -> Result<bool, Fail> {
    let got = run_over(alloc, words, CONTRADICTION)?;
    Ok(got.out.as_str().ends_with(ending))
}

#[test]
fn the_most_behaviours_and_the_greatest_seed(rt: HostRuntime) -> Result<(), Fail> {
    let alloc = rt.alloc();
    let most = &["l.csv", "--power", "1000", "18446744073709551615"];
    assert!(&rt; has_power_over(alloc, most, "/1000,,,\n")?);
    let least = &["l.csv", "--power", "1", "0"];
    assert!(&rt; has_power_over(alloc, least, "/1,,,\n")?);
    let padded = &["l.csv", "--power", "0001", "00"];
    assert!(&rt; is_done(alloc, padded)?);
    Ok(())
}

/// The stated products pass their width, and rounded ones do not.
const WITHHELD: &str = "household,p_a,q_a,p_b,q_b\nA,4194304,2097151,1,4194304\n\
    A,1,1747627,3145727,2796203\nA,1,4194304,4194304,2097151\n";

/// The output with another word where it says that a test is withheld.
fn with_given(alloc: Global, out: &str, word: &str) -> Result<String, Fail> {
    let Some((before, after)) = out.split_once("withheld") else {
        return Ok(String::from_str(alloc, "")?);
    };
    Ok(format!(in alloc; "{before}{word}{after}")?)
}

fn assert_filled(rt: &impl Abort, alloc: Global) -> Result<(), Fail> {
    let stated = run_over(alloc, &["l.csv"], WITHHELD)?;
    let filled = run_over(alloc, &["l.csv", "--wide"], WITHHELD)?;
    let wanted = with_given(alloc, stated.out.as_str(), "holds")?;
    assert!(rt; filled.status == Status::Done);
    assert!(rt;
        filled.out.as_str() == wanted.as_str(),
        "{} {}",
        stated.out,
        filled.out
    );
    Ok(())
}

#[test]
fn what_is_withheld_is_filled_where_that_is_asked(rt: HostRuntime) -> Result<(), Fail> {
    assert_filled(&rt, rt.alloc())
}
