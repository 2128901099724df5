//! Files of choices that are refused.
use rp_commands::Status;
use std::test::Fail;
use tests_inputs::choices::{COPRIME, CROSSED, OF_VIOLATION, VIOLATION};
use tests_support::{ends, filled, refuses, rejects};

/// The words over budgets and choices, and over a certificate of them.
const RANDOM: &[&str] = &["rp", "random", "b.csv", "c.csv"];

const CHECKED: &[&str] = &["rp", "checkrandom", "b.csv", "c.csv", "v.json"];

const UNKNOWN: &str = "budget,q_a,q_b,n\n3,2,1,1\n";

/// Budgets, choices, a certificate, and what is told of them.
const SEVERAL: &[(&str, &str, &str, &str)] = &[
    ("", UNKNOWN, "", "rp: b.csv: Empty\n"),
    ("", "", OF_VIOLATION, "rp: b.csv: Empty\n"),
    (CROSSED, UNKNOWN, "", "rp: c.csv: UnknownBudget record 1\n"),
    (CROSSED, COPRIME, "", "rp: v.json: NotJson\n"),
    (CROSSED, COPRIME, OF_VIOLATION, "rp: NeedUnit budget 2\n"),
];

/// Files are read whole in the order of the words, and the patches are made of them after the last one.
#[test]
fn the_first_fault_of_several_is_told(rt: HostRuntime) -> Result<(), Fail> {
    for (budgets, choices, certificate, line) in SEVERAL {
        let files = &[
            ("b.csv", *budgets),
            ("c.csv", choices),
            ("v.json", certificate),
        ];
        refuses(rt.alloc(), CHECKED, files, line)?;
    }
    Ok(())
}

/// With units that are asked for there are patches, and the certificate is looked at.
#[test]
fn with_units_the_certificate_is_looked_at(rt: HostRuntime) -> Result<(), Fail> {
    let files = &[
        ("b.csv", CROSSED),
        ("c.csv", COPRIME),
        ("v.json", OF_VIOLATION),
    ];
    let words = &["rp", "checkrandom", "--per=100", "b.csv", "c.csv", "v.json"];
    rejects(rt.alloc(), words, files, "rejected item 1 Units place 0\n")
}

/// Budgets, choices, and what is told of them: first of two faults, then faults with their places.
const FAULTS: &[(&str, &str, &str)] = &[
    ("", UNKNOWN, "rp: b.csv: Empty\n"),
    (CROSSED, UNKNOWN, "rp: c.csv: UnknownBudget record 1\n"),
    (CROSSED, COPRIME, "rp: NeedUnit budget 2\n"),
    (
        "p_a,w\n1,0\n",
        VIOLATION,
        "rp: b.csv: ZeroBundle record 1\n",
    ),
    (
        "p_a,w\n1,4\n0,4\n",
        VIOLATION,
        "rp: b.csv: ZeroPrice record 2 column 1\n",
    ),
    (
        "p_a,p_b\n1,2\n",
        VIOLATION,
        "rp: b.csv: Unpaired column 0\n",
    ),
    (
        CROSSED,
        "budget,q_a,q_c,n\n1,2,1,1\n",
        "rp: c.csv: OtherGoods column 3\n",
    ),
    (
        CROSSED,
        "budget,q_a,q_b,n\n1,2,1,1\n2,1,2,0\n",
        "rp: c.csv: NoChoices budget 2\n",
    ),
    (
        CROSSED,
        "budget,q_a,q_b,n\n1,2,1,1\n2,0,0,0\n",
        "rp: c.csv: ZeroBundle record 2\n",
    ),
    (
        CROSSED,
        "budget,q_a,q_b,n\n1,2,1,1.5\n",
        "rp: c.csv: BadNumber record 1 column 4\n",
    ),
];

#[test]
fn faults_of_budgets_and_choices(rt: HostRuntime) -> Result<(), Fail> {
    for (budgets, choices, line) in FAULTS {
        refuses(
            rt.alloc(),
            RANDOM,
            &[("b.csv", budgets), ("c.csv", choices)],
            line,
        )?;
    }
    Ok(())
}

const MISSING: &[(&[(&str, &str)], Status, &str)] = &[
    (&[], Status::ReadFault, "rp: b.csv: read failed\n"),
    (
        &[("c.csv", UNKNOWN), ("v.json", "")],
        Status::ReadFault,
        "rp: b.csv: read failed\n",
    ),
    (&[("b.csv", "")], Status::Refused, "rp: b.csv: Empty\n"),
    (
        &[("b.csv", CROSSED), ("v.json", "")],
        Status::ReadFault,
        "rp: c.csv: read failed\n",
    ),
    (
        &[("b.csv", CROSSED), ("c.csv", UNKNOWN)],
        Status::Refused,
        "rp: c.csv: UnknownBudget record 1\n",
    ),
    (
        &[("b.csv", CROSSED), ("c.csv", COPRIME)],
        Status::ReadFault,
        "rp: v.json: read failed\n",
    ),
];

/// A file that cannot be read is told where its turn comes, before what it would be refused for.
#[test]
fn files_that_are_not_there(rt: HostRuntime) -> Result<(), Fail> {
    for (files, status, line) in MISSING {
        ends(rt.alloc(), CHECKED, files, *status, "", line)?;
    }
    Ok(())
}

/// Line feeds alone are no record; with a byte past the limit a file is not looked at.
#[test]
fn files_of_the_most_bytes_and_of_one_more(rt: HostRuntime) -> Result<(), Fail> {
    let alloc = rt.alloc();
    let most = filled(alloc, b'\n', 4_194_304)?;
    let more = filled(alloc, b'\n', 4_194_305)?;
    let (most, more) = (most.as_str(), more.as_str());
    for (budgets, choices, line) in [
        (most, VIOLATION, "rp: b.csv: Empty\n"),
        (more, VIOLATION, "rp: b.csv: TooLong\n"),
        (more, more, "rp: b.csv: TooLong\n"),
        (CROSSED, most, "rp: c.csv: Empty\n"),
        (CROSSED, more, "rp: c.csv: TooLong\n"),
    ] {
        let files = &[("b.csv", budgets), ("c.csv", choices), ("v.json", "")];
        refuses(alloc, RANDOM, files, line)?;
        refuses(alloc, CHECKED, files, line)?;
    }
    Ok(())
}

/// Spaces alone are no JSON.
#[test]
fn certificates_of_the_most_bytes_and_of_one_more(rt: HostRuntime) -> Result<(), Fail> {
    let alloc = rt.alloc();
    for (size, line) in [
        (16_777_216, "rp: v.json: NotJson\n"),
        (16_777_217, "rp: v.json: TooLong\n"),
    ] {
        let text = filled(alloc, b' ', size)?;
        let files = &[
            ("b.csv", CROSSED),
            ("c.csv", VIOLATION),
            ("v.json", text.as_str()),
        ];
        refuses(alloc, CHECKED, files, line)?;
    }
    Ok(())
}
