//! The patches that choices from budgets fall in.
use std::test::Fail;
use tests_inputs::choices::{COPRIME, CROSSED, DEAR, HALVES, ONE_BUDGET, ONE_CHOICE, VIOLATION};
use tests_support::{prints, refuses};

const PATCHES: &[&str] = &["rp", "patches", "b.csv", "c.csv"];

const PER_100: &[&str] = &["rp", "patches", "b.csv", "c.csv", "--per", "100"];

/// Words, budgets, choices and their patches.
const TOLD: &[(&[&str], &str, &str, &str)] = &[
    (
        PATCHES,
        CROSSED,
        VIOLATION,
        "budgets 2 patches 4 total 4\npatch 1 budget 1 units 1 sides on above\n\
        patch 2 budget 1 units 3 sides on below\npatch 3 budget 2 units 2 sides above on\n\
        patch 4 budget 2 units 2 sides below on\n",
    ),
    // two budgets that the same bundle costs all of
    (
        PATCHES,
        DEAR,
        HALVES,
        "budgets 3 patches 9 total 3\npatch 1 budget 1 units 1 sides on above above\n\
        patch 2 budget 1 units 1 sides on on on\npatch 3 budget 1 units 1 sides on below above\n\
        patch 4 budget 2 units 1 sides above on on\npatch 5 budget 2 units 1 sides above on above\n\
        patch 6 budget 2 units 1 sides on on below\npatch 7 budget 3 units 1 sides above above on\n\
        patch 8 budget 3 units 1 sides on above on\npatch 9 budget 3 units 1 sides below below on\n",
    ),
    (
        PATCHES,
        ONE_BUDGET,
        ONE_CHOICE,
        "budgets 1 patches 1 total 7\npatch 1 budget 1 units 7 sides on\n",
    ),
    (
        PER_100,
        CROSSED,
        COPRIME,
        "budgets 2 patches 2 total 100\napportioned per 100\npatch 1 budget 1 units 100 sides on above\n\
        patch 2 budget 2 units 100 sides above on\n",
    ),
];

#[test]
fn patches_of_choices_from_budgets(rt: HostRuntime) -> Result<(), Fail> {
    for (words, budgets, choices, text) in TOLD {
        let files = &[("b.csv", *budgets), ("c.csv", choices)];
        prints(rt.alloc(), words, files, text)?;
    }
    Ok(())
}

/// No unit is asked for, and none is small enough.
#[test]
fn patches_need_a_unit(rt: HostRuntime) -> Result<(), Fail> {
    let files = &[("b.csv", CROSSED), ("c.csv", COPRIME)];
    refuses(rt.alloc(), PATCHES, files, "rp: NeedUnit budget 2\n")
}
