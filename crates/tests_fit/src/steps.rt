//! Random choices within a limit of steps: `random` with `--steps`.
use crate::programs::{assert_ended, run_over};
use rp_front::Status;
use std::alloc::Global;
use std::process::Abort;
use std::test::Fail;
use tests_inputs::choices::{
    COPRIME, CROSSED, OF_VIOLATION, OF_VIOLATION_PER_100, VIOLATION, choices_on_pairs, pairs,
};

const USAGE: &str =
    "usage: rp-wide fit TABLE [--json]\n       rp-wide checkfit TABLE CERT\n       rp-wide random BUDGETS CHOICES --steps N [--per N] [--json]\n";

const FILES: &[(&str, &str)] = &[
    ("b.csv", CROSSED),
    ("c.csv", VIOLATION),
    ("e.csv", ""),
    ("u.csv", "budget,q_a,q_b,n\n3,2,1,1\n"),
    ("p.csv", COPRIME),
];

/// Words with a limit, in each order. All rational types of these choices are listed, so no limit stops anything.
const ORDERS: [&[&str]; 6] = [
    &["rp", "random", "b.csv", "c.csv", "--steps", "1", "--json"],
    &["rp", "random", "--steps", "1", "b.csv", "c.csv", "--json"],
    &["rp", "random", "b.csv", "--steps", "1", "c.csv", "--json"],
    &["rp", "random", "--json", "b.csv", "c.csv", "--steps", "1"],
    &[
        "rp",
        "random",
        "--json",
        "--steps",
        "34359738368",
        "b.csv",
        "c.csv",
    ],
    &[
        "rp", "random", "b.csv", "c.csv", "--per", "4", "--steps", "1", "--json",
    ],
];

#[test]
fn limits_stop_nothing_that_is_listed(rt: HostRuntime) -> Result<(), Fail> {
    for words in ORDERS {
        let ended = run_over(rt.alloc(), words, false, FILES, &[])?;
        assert_ended(&rt, &ended, Status::Done, OF_VIOLATION, "");
    }
    Ok(())
}

/// The numbers of the two options are not exchanged.
#[test]
fn units_are_not_steps(rt: HostRuntime) -> Result<(), Fail> {
    let words = &[
        "rp", "random", "b.csv", "--per", "100", "c.csv", "--steps", "7", "--json",
    ];
    let ended = run_over(rt.alloc(), words, false, FILES, &[])?;
    assert_ended(&rt, &ended, Status::Done, OF_VIOLATION_PER_100, "");
    Ok(())
}

/// Words that are not taken: a number that is 0, past its limit, missing or none; an option twice; a file too few or too
/// many; an option in place of a file.
const OTHERS: [&[&str]; 13] = [
    &["rp", "random", "b.csv", "c.csv", "--steps", "0"],
    &["rp", "random", "b.csv", "c.csv", "--steps", "34359738369"],
    &["rp", "random", "b.csv", "c.csv", "--steps", "-1"],
    &["rp", "random", "b.csv", "c.csv", "--steps", "1.5"],
    &["rp", "random", "b.csv", "c.csv", "--steps", ""],
    &["rp", "random", "b.csv", "c.csv", "--steps"],
    &[
        "rp", "random", "b.csv", "c.csv", "--steps", "1", "--steps", "2",
    ],
    &[
        "rp", "random", "b.csv", "c.csv", "--json", "--steps", "1", "--json",
    ],
    &[
        "rp", "random", "b.csv", "c.csv", "--steps", "1", "--per", "0",
    ],
    &["rp", "random", "b.csv", "--steps", "1"],
    &["rp", "random", "b.csv", "c.csv", "d.csv", "--steps", "1"],
    &["rp", "random", "b.csv", "", "--steps", "1"],
    &["rp", "random", "b.csv", "c.csv"],
];

#[test]
fn other_words_are_not_taken(rt: HostRuntime) -> Result<(), Fail> {
    for words in OTHERS {
        let ended = run_over(rt.alloc(), words, false, FILES, &[])?;
        assert_ended(&rt, &ended, Status::Usage, "", USAGE);
    }
    Ok(())
}

/// Names of two files, how a call ends over them, and what it says.
const FAULTS: [(&str, &str, Status, &str); 5] = [
    (
        "n.csv",
        "c.csv",
        Status::ReadFault,
        "rp: n.csv: read failed\n",
    ),
    (
        "b.csv",
        "n.csv",
        Status::ReadFault,
        "rp: n.csv: read failed\n",
    ),
    ("e.csv", "u.csv", Status::Refused, "rp: e.csv: Empty\n"),
    (
        "b.csv",
        "u.csv",
        Status::Refused,
        "rp: u.csv: UnknownBudget record 1\n",
    ),
    ("b.csv", "p.csv", Status::Refused, "rp: NeedUnit budget 2\n"),
];

#[test]
fn files_are_read_in_their_order(rt: HostRuntime) -> Result<(), Fail> {
    for (budgets, choices, status, told) in FAULTS {
        let words = &["rp", "random", budgets, choices, "--steps", "9"];
        let ended = run_over(rt.alloc(), words, false, FILES, &[])?;
        assert_ended(&rt, &ended, status, "", told);
    }
    Ok(())
}

/// What is written of eight pairs of budgets, whose 3^8 rational types are not listed, within so many steps.
fn over_pairs(alloc: Global, steps: &str) -> Result<String, Fail> {
    let (budgets, choices) = (pairs(alloc, 8)?, choices_on_pairs(alloc, 8)?);
    let files = &[("b.csv", budgets.as_str()), ("c.csv", choices.as_str())];
    let words = &["rp", "random", "b.csv", "c.csv", "--steps", steps];
    let ended = run_over(alloc, words, false, files, &[])?;
    Ok(ended.out)
}

/// A type takes a look at a patch of each of the sixteen budgets, so fewer steps find none, and all of them are made.
#[test]
fn few_steps_leave_it_undetermined(rt: HostRuntime) -> Result<(), Fail> {
    let alloc = rt.alloc();
    for steps in ["1", "15"] {
        let wanted = format!(in alloc;
            "budgets 16 patches 32 types unlisted total 4\nrandom withheld {steps}\n"
        )?;
        let written = over_pairs(alloc, steps)?;
        assert!(rt; written.as_str() == wanted.as_str(), "{written}");
    }
    Ok(())
}

/// Each type takes a patch of each pair that lies above the other budget, and those have three of the four units.
#[test]
fn ample_steps_find_the_share(rt: HostRuntime) -> Result<(), Fail> {
    let written = over_pairs(rt.alloc(), "1000000")?;
    assert!(rt;
        written.as_str().starts_with(
            "budgets 16 patches 32 types unlisted total 4\nrandom violated share 3/4\n"
        )
    );
    Ok(())
}
