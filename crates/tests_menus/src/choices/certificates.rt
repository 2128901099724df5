//! Certificates on random choices.
use crate::choices::lines::{ACCEPTED, CHECKED};
use rp_commands::Status;
use std::test::Fail;
use tests_inputs::choices::{
    COPRIME, CROSSED, DEAR, HALVES, IRRATIONAL, MIXTURE, OF_COPRIME_PER_100, OF_HALVES,
    OF_IRRATIONAL, OF_MIXTURE, OF_ONE_CHOICE, OF_VIOLATION, OF_VIOLATION_PER_100, ONE_BUDGET,
    ONE_CHOICE, VIOLATION,
};
use tests_support::{ends, prints, rejects};

/// Budgets, choices and their certificate.
const OF_CHOICES: &[(&str, &str, &str)] = &[
    (CROSSED, VIOLATION, OF_VIOLATION),
    (CROSSED, MIXTURE, OF_MIXTURE),
    (CROSSED, IRRATIONAL, OF_IRRATIONAL),
    (ONE_BUDGET, ONE_CHOICE, OF_ONE_CHOICE),
    (DEAR, HALVES, OF_HALVES),
];

/// Each certificate is written so, and accepted over the files that it was made of.
#[test]
fn certificates_are_accepted_over_their_own_files(rt: HostRuntime) -> Result<(), Fail> {
    let alloc = rt.alloc();
    for (budgets, choices, certificate) in OF_CHOICES {
        let files = &[
            ("b.csv", *budgets),
            ("c.csv", choices),
            ("v.json", certificate),
        ];
        prints(
            alloc,
            &["rp", "random", "b.csv", "c.csv", "--json"],
            files,
            certificate,
        )?;
        prints(alloc, CHECKED, files, ACCEPTED)?;
    }
    Ok(())
}

/// The words of a check with so many units.
fn checked_per<'a>(per: &'a str) -> [&'a str; 7] {
    [
        "rp",
        "checkrandom",
        "b.csv",
        "c.csv",
        "v.json",
        "--per",
        per,
    ]
}

/// With so many units a certificate is accepted where as many are asked for, and only there.
#[test]
fn certificates_of_so_many_units(rt: HostRuntime) -> Result<(), Fail> {
    let alloc = rt.alloc();
    let rejected = "rejected item 1 Units place 0\n";
    for (choices, certificate) in [
        (VIOLATION, OF_VIOLATION_PER_100),
        (COPRIME, OF_COPRIME_PER_100),
    ] {
        let files = &[
            ("b.csv", CROSSED),
            ("c.csv", choices),
            ("v.json", certificate),
        ];
        let made = &["rp", "random", "b.csv", "c.csv", "--per", "100", "--json"];
        prints(alloc, made, files, certificate)?;
        prints(alloc, &checked_per("100"), files, ACCEPTED)?;
        rejects(alloc, &checked_per("99"), files, rejected)?;
    }
    Ok(())
}

#[test]
fn certificates_of_so_many_units_without_them(rt: HostRuntime) -> Result<(), Fail> {
    for (choices, certificate, status, out, err) in [
        (
            VIOLATION,
            OF_VIOLATION_PER_100,
            Status::Rejected,
            "rejected item 1 Units place 0\n",
            "",
        ),
        (
            COPRIME,
            OF_COPRIME_PER_100,
            Status::Refused,
            "",
            "rp: NeedUnit budget 2\n",
        ),
    ] {
        let files = &[
            ("b.csv", CROSSED),
            ("c.csv", choices),
            ("v.json", certificate),
        ];
        ends(rt.alloc(), CHECKED, files, status, out, err)?;
    }
    Ok(())
}

/// Choices, a certificate of others, and where it fails.
const OF_OTHER_CHOICES: &[(&str, &str, &str)] = &[
    // the second patch has one unit, and its part has two
    (MIXTURE, OF_VIOLATION, "rejected item 1 Units place 2\n"),
    // the first patch has one unit, and its parts have three
    (VIOLATION, OF_MIXTURE, "rejected item 1 Units place 1\n"),
    (VIOLATION, OF_IRRATIONAL, "rejected item 1 Units place 0\n"),
];

/// Over other choices from the same budgets the first patch with other units is told.
#[test]
fn certificates_are_rejected_over_other_choices(rt: HostRuntime) -> Result<(), Fail> {
    for (choices, certificate, text) in OF_OTHER_CHOICES {
        let files = &[
            ("b.csv", CROSSED),
            ("c.csv", *choices),
            ("v.json", certificate),
        ];
        rejects(rt.alloc(), CHECKED, files, text)?;
    }
    Ok(())
}
