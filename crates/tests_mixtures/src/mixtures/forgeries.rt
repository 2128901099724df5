//! Forged evidence on random choices.
use crate::mixtures::forged::{
    answer, assert_answers, assert_text, followed, item_of, patches_of, withheld,
};
use rp_patch::Patches;
use std::alloc::Global;
use std::test::Fail;
use tests_inputs::choices::{CROSSED, MIXTURE, ONE_BUDGET, ONE_CHOICE, VIOLATION};

/// The greatest number that a linear program may give, 2^63 - 1, and one more are among them.
const VIOLATIONS: &str = "\
4;1; 0 3:1, 1 2:2; 1 0 1 0 => accepted
4;2; 0 3:2, 1 2:4; 2 0 2 0 => accepted
5;1; 0 3:1, 1 2:2; 1 0 1 0 => item 1 Units 0
3;0; 0 3:1, 1 2:2; 1 0 1 => item 1 Units 0
4;0; 0 3:1, 1 2:2; 1 0 1 0 => item 1 Number 0
4;9223372036854775808; 0 3:1, 1 2:2; 1 0 1 0 => item 1 Number 0
4;1; 0 3:1, 1 2:2; 1 0 1 9223372036854775808 => item 1 Number 0
4;1; 0 3:1, 1 2:2; 9223372036854775807 9223372036854775807 9223372036854775807 9223372036854775807 => item 1 Least 0
4;1; 1 3:1, 0 3:1, 1 2:2; 1 0 1 0 => item 1 Irrational 1
4;1; 1 3:1, 0 3:1, 1 2:2; 1 0 1 => item 1 Irrational 1
4;1; 1 2:2, 0 3:1; 1 0 1 0 => item 1 Order 2
4;1; 0 3:1, 1 2:2; 1 0 1 => item 1 Shape 0
4;1; 0 3:1, 1 2:2; 1 0 1 0 0 => item 1 Shape 0
4;1; 0 3:2, 1 2:2; 1 0 1 => item 1 Shape 0
4;1; 0 3:2, 1 2:2; 1 0 1 0 => item 1 Units 1
4;1; 0 3:1, 1 2:3; 0 0 0 0 => item 1 Units 3
4;1; 0 3:1, 1 2:2; 0 0 1 0 => item 1 Dual 0
4;2; 0 3:1, 1 2:2; 1 0 1 0 => item 1 Dual 0
4;1; 0 3:1, 1 2:1; 1 0 1 0 => item 1 Least 0
4;1; ; 1 0 1 0 => item 1 Least 0
4;1; 0 3:1, 1 2:2; 1 0 1 1 => item 1 Least 0
4;1; 0 3:1, 1 2:2; 1 1 1 1 => item 1 Least 0
";

/// All of the units are in some rational type.
const OF_MIXTURE: &str = "\
4;1; 0 2:1, 0 3:2, 1 2:1; 1 1 0 0 => item 1 NotLess 0
";

#[test]
fn forged_violations(rt: HostRuntime) -> Result<(), Fail> {
    let alloc = rt.alloc();
    assert_answers(
        &rt,
        alloc,
        &patches_of(alloc, CROSSED, VIOLATION, None)?,
        VIOLATIONS,
    )?;
    assert_answers(
        &rt,
        alloc,
        &patches_of(alloc, CROSSED, MIXTURE, None)?,
        OF_MIXTURE,
    )
}

/// A weight past the width comes before the form of any part, as the fifth line tells.
const MIXTURES: &str = "\
4;1; 0 2:1, 0 3:2, 1 2:1 => accepted
4;3; 0 2:3, 0 3:6, 1 2:3 => accepted
4;0; 0 2:1, 0 3:2, 1 2:1 => item 1 Number 0
4;9223372036854775808; 0 2:1, 0 3:2, 1 2:1 => item 1 Number 0
4;1; 0:1, 1 2:9223372036854775808 => item 1 Number 0
4;1; :1 => item 1 Shape 1
4;1; 0:1 => item 1 Shape 1
4;1; 0 2 2:1 => item 1 Shape 1
4;1; 2 0:1 => item 1 Shape 1
4;1; 0 1:1 => item 1 Shape 1
4;1; 0 4:1 => item 1 Shape 1
4;1; 0 2:1, 0 4294967295:0 => item 1 Shape 2
4;1; 0 2:0, 0 4:1 => item 1 Number 1
4;1; 0 2:1, 1 3:0 => item 1 Number 2
4;1; 1 2:1, 1 3:1 => item 1 Irrational 2
4;1; 0 2:1, 0 2:1 => item 1 Order 2
4;1; 0 2:1, 1 2:1, 0 3:2 => item 1 Order 3
4;1;  => item 1 Units 1
4;2; 0 2:1, 0 3:2, 1 2:1 => item 1 Units 1
4;1; 0 2:1, 0 3:2, 1 2:2 => item 1 Units 2
";

/// The parts of a violation.
const OF_VIOLATION: &str = "\
4;1; 0 3:1, 1 2:2 => item 1 Units 2
";

#[test]
fn forged_mixtures(rt: HostRuntime) -> Result<(), Fail> {
    let alloc = rt.alloc();
    assert_answers(
        &rt,
        alloc,
        &patches_of(alloc, CROSSED, MIXTURE, None)?,
        MIXTURES,
    )?;
    assert_answers(
        &rt,
        alloc,
        &patches_of(alloc, CROSSED, VIOLATION, None)?,
        OF_VIOLATION,
    )
}

/// A unit is all that one patch has, and its weight the greatest.
const UP_TO_THE_WIDTH: &str = "\
1;9223372036854775807; 0:9223372036854775807 => accepted
1;9223372036854775807; 0:9223372036854775806 => item 1 Units 1
";

#[test]
fn mixtures_up_to_the_width(rt: HostRuntime) -> Result<(), Fail> {
    let alloc = rt.alloc();
    let patches = patches_of(alloc, ONE_BUDGET, ONE_CHOICE, Some(1))?;
    assert_answers(&rt, alloc, &patches, UP_TO_THE_WIDTH)
}

/// The answer on a true violation and what is withheld of the same total.
fn answer_on_two(alloc: Global, patches: &Patches) -> Result<String, Fail> {
    let items = followed(alloc, "4;1; 0 3:1, 1 2:2; 1 0 1 0", 7)?;
    answer(alloc, patches, items)
}

/// The answer on what is withheld of another total.
fn answer_on_other_total(alloc: Global, patches: &Patches) -> Result<String, Fail> {
    let mut items = Vec::new(alloc);
    items.push(withheld(3, 7))?;
    answer(alloc, patches, items)
}

/// The answer on a mixture of nothing between what is withheld, last of another total.
fn answer_on_three(alloc: Global, patches: &Patches) -> Result<String, Fail> {
    let item = item_of(alloc, "4;1;")?;
    let mut items = Vec::new(alloc);
    items.push(withheld(4, 0))?;
    items.push(item)?;
    items.push(withheld(5, 0))?;
    answer(alloc, patches, items)
}

/// What is withheld is passed over, but for its total; of several items the first that fails is told.
#[test]
fn forged_items_after_others(rt: HostRuntime) -> Result<(), Fail> {
    let alloc = rt.alloc();
    let patches = patches_of(alloc, CROSSED, VIOLATION, None)?;
    assert_text(
        &rt,
        "no item",
        answer(alloc, &patches, Vec::new(alloc))?,
        "accepted",
    );
    assert_text(
        &rt,
        "two items",
        answer_on_two(alloc, &patches)?,
        "accepted",
    );
    assert_text(
        &rt,
        "another total",
        answer_on_other_total(alloc, &patches)?,
        "item 1 Units 0",
    );
    assert_text(
        &rt,
        "three items",
        answer_on_three(alloc, &patches)?,
        "item 2 Units 1",
    );
    Ok(())
}
