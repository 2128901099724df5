//! The units of cells.
use crate::menus::cases::{Asked, assert_text, assert_told};
use rp_patch::ApportionFault;
use std::test::Fail;

/// Units over the least common multiple of the menus' counts, and up to the largest total.
const IN_COMMON: &[(&str, &str)] = &[
    ("menu,choice,n\nab,a,1\nab,b,2\n", "1 2 of 3"),
    // 3 and 4 choices
    (
        "menu,choice,n\nab,a,1\nab,b,2\nac,a,3\nac,c,1\n",
        "4 8 9 3 of 12",
    ),
    // 512 times 1953125 is 1,000,000,000
    (
        "menu,choice,n\nab,a,512\nac,a,1953125\n",
        "1000000000 1000000000 of 1000000000",
    ),
    // 19019 times 52579 is one more
    ("menu,choice,n\nab,a,19019\nac,a,52579\n", "NeedUnit 1"),
    // 4, 2 and 16666666 choices
    (
        "menu,choice,n\na,a,4\nb,b,2\nc,c,8333333\nc,c,8333333\n",
        "33333332 33333332 33333332 of 33333332",
    ),
];

#[test]
fn units_over_what_menus_have_in_common(rt: HostRuntime) -> Result<(), Fail> {
    assert_told(&rt, rt.alloc(), Asked::Units(None), IN_COMMON)
}

/// So many units on each menu: whole parts, and one more for the largest rests, the earlier of equal ones.
const FOUR: &[(&str, &str)] = &[(THREE_LETTERS, "2 1 1 1 3 of 4")];

const FIVE: &[(&str, &str)] = &[(THREE_LETTERS, "2 2 1 2 3 of 5")];

const ONE: &[(&str, &str)] = &[(THREE_LETTERS, "1 0 0 0 1 of 1")];

const MOST: &[(&str, &str)] = &[(
    "menu,choice,n\nab,a,19019\nac,a,52579\n",
    "1000000000 1000000000 of 1000000000",
)];

const THREE_LETTERS: &str = "menu,choice,n\nabc,a,1\nabc,c,1\nabc,b,1\nab,a,1\nab,b,2\n";

#[test]
fn units_by_largest_remainders(rt: HostRuntime) -> Result<(), Fail> {
    let alloc = rt.alloc();
    assert_told(&rt, alloc, Asked::Units(Some(4)), FOUR)?;
    assert_told(&rt, alloc, Asked::Units(Some(5)), FIVE)?;
    assert_told(&rt, alloc, Asked::Units(Some(1)), ONE)?;
    assert_told(&rt, alloc, Asked::Units(Some(1_000_000_000)), MOST)
}

/// The text of a fault is its name alone.
#[test]
fn faults_are_told_by_name(rt: HostRuntime) -> Result<(), Fail> {
    let alloc = rt.alloc();
    let need = ApportionFault::NeedUnit { group: 1 }.to_string(alloc)?;
    assert_text(&rt, 0, need.as_str(), "NeedUnit");
    let want = ApportionFault::NoMemory.to_string(alloc)?;
    assert_text(&rt, 1, want.as_str(), "NoMemory");
    Ok(())
}
