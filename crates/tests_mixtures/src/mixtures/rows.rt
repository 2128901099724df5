//! Patches and their units.
use crate::mixtures::told::{Ask, assert_each, assert_told};
use std::test::Fail;
use tests_inputs::choices::{CROSSED, IRRATIONAL, ONE_BUDGET};

/// In the second a record that was chosen no time comes first and makes no patch. The third has two bundles in one
/// patch, and the total that 6 and 4 have in common. In the fourth a bundle costs as much on the other budget. In the
/// last one that costs 3 of the 4 is scaled, and so lies above the other budget.
const PATCHES: &str = "\
budget,q_a,q_b,n|1,2,1,1|1,0,2,3|2,1,2,2|2,2,0,2| => 1:0+ 1, 1:0- 3, 2:+0 2, 2:-0 2, total 4
budget,q_a,q_b,n|1,0,2,0|1,2,1,1|1,0,2,3|2,1,2,2|2,4,0,0|2,2,0,2| => 1:0+ 1, 1:0- 3, 2:+0 2, 2:-0 2, total 4
budget,q_a,q_b,n|2,2,0,1|1,4,0,1|2,1,2,3|1,2,1,4|1,0,2,1| => 1:0+ 10, 1:0- 2, 2:-0 3, 2:+0 9, total 12
budget,q_a,q_b,n|1,1,1,1|2,1,1,1| => 1:00 1, 2:00 1, total 1
budget,q_a,q_b,n|1,3,0,1|2,1,1,1| => 1:0+ 1, 2:00 1, total 1
";

/// Which patches choices fall in, in their order, and the units of each where none are asked for.
#[test]
fn patches_by_budget_and_first_choice(rt: HostRuntime) -> Result<(), Fail> {
    assert_each(&rt, rt.alloc(), Ask::Patches, CROSSED, PATCHES)
}

/// So many units on each budget: whole parts, and one more for the largest rests, the earlier of equal ones.
#[test]
fn units_by_largest_remainders(rt: HostRuntime) -> Result<(), Fail> {
    let three = "budget,q_a,q_b,n\n1,2,1,1\n1,0,2,1\n1,1,1,1\n2,1,2,1\n2,2,0,2\n";
    let told = "1:0+ 2, 1:0- 1, 1:00 1, 2:+0 1, 2:-0 3, total 4";
    assert_told(&rt, rt.alloc(), Ask::Patches, CROSSED, three, Some(4), told)?;
    let told = "1:0+ 2, 1:0- 2, 1:00 1, 2:+0 2, 2:-0 3, total 5";
    assert_told(&rt, rt.alloc(), Ask::Patches, CROSSED, three, Some(5), told)?;
    let told = "1:0+ 1, 1:0- 0, 1:00 0, 2:+0 0, 2:-0 1, total 1";
    assert_told(&rt, rt.alloc(), Ask::Patches, CROSSED, three, Some(1), told)
}

const ACROSS: &str = "\
budget,q_a,q_b,n|1,3,0,1|2,1,0,1| => 1:0- 1, 2:+0 1, total 1
";

/// Incomes of other budgets count: the bundle is scaled to the income of its own.
#[test]
fn incomes_are_multiplied_across(rt: HostRuntime) -> Result<(), Fail> {
    let budgets = "p_a,p_b,w\n1,1,2\n1,1,4\n";
    assert_each(&rt, rt.alloc(), Ask::Patches, budgets, ACROSS)
}

/// In the second each is on the line of the other's budget: a cycle without a strict step.
const TYPES: &str = "\
budget,q_a,q_b,n|1,2,1,1|1,0,2,3|2,1,2,2|2,2,0,2| =>  1 3, 1 4, 2 3
budget,q_a,q_b,n|1,1,1,1|2,1,1,1| =>  1 2
";

const ONE_TYPE: &str = "\
budget,q_a,n|1,2,7| =>  1
";

/// On the line, and below: a cycle with a strict step.
const STRICT: &str = "budget,q_a,q_b,n\n1,1,1,1\n2,2,0,1\n";

/// All rational types, in their order. None is where each choice is below the other's budget, and none where one is.
#[test]
fn types_in_order(rt: HostRuntime) -> Result<(), Fail> {
    assert_each(&rt, rt.alloc(), Ask::Types, CROSSED, TYPES)?;
    assert_each(&rt, rt.alloc(), Ask::Types, ONE_BUDGET, ONE_TYPE)?;
    assert_told(&rt, rt.alloc(), Ask::Types, CROSSED, IRRATIONAL, None, "")?;
    assert_told(&rt, rt.alloc(), Ask::Types, CROSSED, STRICT, None, "")
}
