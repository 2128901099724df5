//! Forged certificates on random choices.
use crate::choices::lines::CHECKED;
use rp_commands::Status;
use std::alloc::Global;
use std::test::Fail;
use tests_inputs::choices::{CROSSED, MIXTURE, OF_VIOLATION, ON_A_TABLE, VIOLATION};
use tests_inputs::tables::ALONE;
use tests_support::{ends, prints, refuses};

/// Choices, items of a certificate, and how a check of it ends.
const FORGED: &[(&str, &str, Status, &str)] = &[
    (
        VIOLATION,
        r#"{"den":"1","item":"random","parts":[[[1,4],"1"],[[2,3],"2"]],"total":"5","weights":["1","0","1","0"]}"#,
        Status::Rejected,
        "rejected item 1 Units place 0\n",
    ),
    (
        VIOLATION,
        r#"{"den":"0","item":"random","parts":[[[1,4],"1"],[[2,3],"2"]],"total":"4","weights":["1","0","1","0"]}"#,
        Status::Rejected,
        "rejected item 1 Number place 0\n",
    ),
    (
        VIOLATION,
        r#"{"den":"1","item":"random","parts":[[[1],"1"],[[2,3],"2"]],"total":"4","weights":["1","0","1","0"]}"#,
        Status::Rejected,
        "rejected item 1 Shape place 1\n",
    ),
    (
        VIOLATION,
        r#"{"den":"1","item":"random","parts":[[[2,4],"1"],[[2,3],"2"]],"total":"4","weights":["1","0","1","0"]}"#,
        Status::Rejected,
        "rejected item 1 Irrational place 1\n",
    ),
    (
        VIOLATION,
        r#"{"den":"1","item":"random","parts":[[[2,3],"2"],[[1,4],"1"]],"total":"4","weights":["1","0","1","0"]}"#,
        Status::Rejected,
        "rejected item 1 Order place 2\n",
    ),
    // the parts of the violation as a mixture
    (
        VIOLATION,
        r#"{"den":"1","item":"random","parts":[[[1,4],"1"],[[2,3],"2"]],"total":"4"}"#,
        Status::Rejected,
        "rejected item 1 Units place 2\n",
    ),
    (
        VIOLATION,
        r#"{"den":"1","item":"random","parts":[[[1,4],"2"],[[2,3],"2"]],"total":"4","weights":["1","0","1","0"]}"#,
        Status::Rejected,
        "rejected item 1 Units place 1\n",
    ),
    (
        VIOLATION,
        r#"{"den":"1","item":"random","parts":[[[1,4],"1"],[[2,3],"2"]],"total":"4","weights":["0","0","1","0"]}"#,
        Status::Rejected,
        "rejected item 1 Dual place 0\n",
    ),
    (
        VIOLATION,
        r#"{"den":"1","item":"random","parts":[[[1,4],"1"],[[2,3],"1"]],"total":"4","weights":["1","0","1","0"]}"#,
        Status::Rejected,
        "rejected item 1 Least place 0\n",
    ),
    // the parts of the mixture as a violation
    (
        MIXTURE,
        r#"{"den":"1","item":"random","parts":[[[1,3],"1"],[[1,4],"2"],[[2,3],"1"]],"total":"4","weights":["1","1","0","0"]}"#,
        Status::Rejected,
        "rejected item 1 NotLess place 0\n",
    ),
    // what is withheld claims nothing
    (
        VIOLATION,
        r#"{"item":"random","total":"4","withheld":"7"},{"item":"random","total":"4","withheld":"0"}"#,
        Status::Done,
        "accepted items 2 withheld 2\n",
    ),
    (
        VIOLATION,
        r#"{"item":"random","total":"4","withheld":"7"},{"item":"random","total":"3","withheld":"7"}"#,
        Status::Rejected,
        "rejected item 2 Units place 0\n",
    ),
    // another partial mixture of the greatest share, over another denominator
    (
        VIOLATION,
        r#"{"den":"2","item":"random","parts":[[[1,3],"1"],[[1,4],"1"],[[2,3],"3"],[[2,4],"1"]],"total":"4","weights":["2","0","2","0"]}"#,
        Status::Rejected,
        "rejected item 1 Irrational place 4\n",
    ),
    (
        VIOLATION,
        r#"{"den":"2","item":"random","parts":[[[1,4],"2"],[[2,3],"4"]],"total":"4","weights":["2","0","2","0"]}"#,
        Status::Done,
        "accepted items 1 withheld 0\n",
    ),
    (VIOLATION, "", Status::Done, "accepted items 0 withheld 0\n"),
];

/// A check of this certificate over budgets and choices ends so.
fn check_ends(
    alloc: Global,
    budgets: &str,
    choices: &str,
    certificate: &str,
    status: Status,
    text: &str,
) -> Result<(), Fail> {
    let files = &[
        ("b.csv", budgets),
        ("c.csv", choices),
        ("v.json", certificate),
    ];
    ends(alloc, CHECKED, files, status, text, "")
}

/// The first clause that fails is told with its item and its place.
#[test]
fn forged_certificates(rt: HostRuntime) -> Result<(), Fail> {
    let alloc = rt.alloc();
    for (choices, items, status, text) in FORGED {
        let certificate = format!(in alloc;
            "{{\"items\":[{items}],\"kind\":\"random\",\"version\":1}}\n"
        )?;
        let made = certificate.as_str();
        check_ends(alloc, CROSSED, choices, made, *status, text)?;
    }
    Ok(())
}

/// Texts that are no certificate on choices, and what is told of them.
const TEXTS: &[(&str, &str)] = &[
    ("", "rp: v.json: NotJson\n"),
    ("[]", "rp: v.json: BadShape item 0\n"),
    (ON_A_TABLE, "rp: v.json: BadShape item 0\n"),
    (
        r#"{"items":[],"kind":"random","version":2}"#,
        "rp: v.json: BadShape item 0\n",
    ),
    (
        r#"{"items":[],"kind":"random","levels":[1],"version":2}"#,
        "rp: v.json: BadShape item 0\n",
    ),
    (
        r#"{"items":[],"kind":"random","version":3}"#,
        "rp: v.json: BadVersion\n",
    ),
    (
        r#"{"items":[{"item":"garp","ranks":[1]}],"kind":"random","version":1}"#,
        "rp: v.json: BadShape item 1\n",
    ),
    (
        r#"{"items":[{"item":"random","total":"4","withheld":"7"},{"item":"random","total":4,"withheld":"7"}],"kind":"random","version":1}"#,
        "rp: v.json: BadShape item 2\n",
    ),
    (
        r#"{"items":[{"den":"1","item":"random","parts":[[[0,3],"1"]],"total":"4"}],"kind":"random","version":1}"#,
        "rp: v.json: BadShape item 1\n",
    ),
    (
        r#"{"items":[{"den":"01","item":"random","parts":[],"total":"4"}],"kind":"random","version":1}"#,
        "rp: v.json: BadShape item 1\n",
    ),
    (
        r#"{"items":[{"den":"1","item":"random","parts":[[[1,3],"-1"]],"total":"4"}],"kind":"random","version":1}"#,
        "rp: v.json: BadShape item 1\n",
    ),
    (
        r#"{"items":[{"item":"random","total":"4","withheld":"18446744073709551616"}],"kind":"random","version":1}"#,
        "rp: v.json: BadShape item 1\n",
    ),
];

#[test]
fn texts_that_are_no_certificate(rt: HostRuntime) -> Result<(), Fail> {
    for (text, line) in TEXTS {
        let files = &[("b.csv", CROSSED), ("c.csv", VIOLATION), ("v.json", *text)];
        refuses(rt.alloc(), CHECKED, files, line)?;
    }
    Ok(())
}

#[test]
fn a_certificate_that_is_cut(rt: HostRuntime) -> Result<(), Fail> {
    let shortened = OF_VIOLATION.get(..20).unwrap_or("");
    let files = &[
        ("b.csv", CROSSED),
        ("c.csv", VIOLATION),
        ("v.json", shortened),
    ];
    refuses(rt.alloc(), CHECKED, files, "rp: v.json: NotJson\n")
}

#[test]
fn another_spelling_of_a_certificate(rt: HostRuntime) -> Result<(), Fail> {
    let spaced = "\n{ \"version\" : 1, \"kind\" : \"r\\u0061ndom\",\n\
        \"items\" : [ { \"withheld\" : \"3\", \"total\" : \"4\", \"item\" : \"random\" } ] }";
    let files = &[("b.csv", CROSSED), ("c.csv", VIOLATION), ("v.json", spaced)];
    prints(rt.alloc(), CHECKED, files, "accepted items 1 withheld 1\n")
}

/// A certificate on choices is none on a table.
#[test]
fn a_certificate_of_the_other_kind(rt: HostRuntime) -> Result<(), Fail> {
    let files = &[("t.csv", ALONE), ("v.json", OF_VIOLATION)];
    let words = &["rp", "check", "t.csv", "v.json"];
    refuses(rt.alloc(), words, files, "rp: v.json: BadShape item 0\n")
}
