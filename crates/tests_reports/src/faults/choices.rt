//! Failures of commands over choices.
use crate::faults::failures::{Case, WHOLE, each_read_fails, each_write_fails};
use rp_commands::Status;
use std::test::Fail;
use tests_inputs::choices::{CROSSED, MIXTURE, OF_VIOLATION, VIOLATION};

const BUDGETS: (&str, &str) = ("b.csv", CROSSED);

const VIOLATING: (&str, &str) = ("c.csv", VIOLATION);

const MIXED: (&str, &str) = ("c.csv", MIXTURE);

const REPORT: Case<'static> = Case {
    words: &["rp", "random", "b.csv", "c.csv", "--per", "4"],
    files: &[BUDGETS, VIOLATING],
    status: Status::Done,
    text: "budgets 2 patches 4 types 3 total 4\napportioned per 4\nrandom violated share 3/4\n\
        weights 1 0 1 0 over 1\npart 1 4 weight 1\npart 2 3 weight 2\n",
};

const JSON: Case<'static> = Case {
    words: &["rp", "random", "b.csv", "c.csv", "--json"],
    files: &[BUDGETS, VIOLATING],
    status: Status::Done,
    text: OF_VIOLATION,
};

const PATCHES: Case<'static> = Case {
    words: &["rp", "patches", "b.csv", "c.csv"],
    files: &[BUDGETS, VIOLATING],
    status: Status::Done,
    text: "budgets 2 patches 4 total 4\npatch 1 budget 1 units 1 sides on above\n\
        patch 2 budget 1 units 3 sides on below\npatch 3 budget 2 units 2 sides above on\n\
        patch 4 budget 2 units 2 sides below on\n",
};

const ACCEPTED: Case<'static> = Case {
    words: &["rp", "checkrandom", "b.csv", "c.csv", "v.json"],
    files: &[BUDGETS, VIOLATING, ("v.json", OF_VIOLATION)],
    status: Status::Done,
    text: "accepted items 1 withheld 0\n",
};

const REJECTED: Case<'static> = Case {
    words: &["rp", "checkrandom", "b.csv", "c.csv", "v.json"],
    files: &[BUDGETS, MIXED, ("v.json", OF_VIOLATION)],
    status: Status::Rejected,
    text: "rejected item 1 Units place 2\n",
};

const CASES: &[Case<'static>] = &[REPORT, JSON, PATCHES, ACCEPTED, REJECTED];

#[test]
fn each_read_of_budgets_and_choices_fails_in_turn(rt: HostRuntime) -> Result<(), Fail> {
    for case in CASES {
        each_read_fails(&rt, rt.alloc(), case, 1)?;
    }
    Ok(())
}

#[test]
fn each_write_on_choices_fails_in_turn(rt: HostRuntime) -> Result<(), Fail> {
    for case in CASES {
        each_write_fails(&rt, rt.alloc(), case, WHOLE)?;
    }
    Ok(())
}
