//! Files of choices from menus that are refused.
use crate::menus::cases::{Asked, assert_text, assert_told};
use rp_menu::MenuFault;
use std::alloc::Global;
use std::process::Abort;
use std::test::Fail;

/// Each fault at its place.
const AT_THEIR_PLACES: &[(&str, &str)] = &[
    ("", "Empty"),
    ("menu,choice,m\na,a,1\n", "BadHeader column 3"),
    ("menu,p_a,n\na,a,1\n", "BadHeader column 2"),
    ("menu,choice,n,menu\na,a,1,a\n", "TwiceNamed column 4"),
    ("menu,n\na,1\n", "Unpaired column 0"),
    ("choice,n\na,1\n", "Unpaired column 0"),
    ("menu,choice\na,a\n", "Unpaired column 0"),
    ("menu,choice,n\n", "NoRecords"),
    ("menu,choice,n\na,a,1\na,a\n", "Ragged record 2"),
    ("menu,choice,n\na,a,x\n", "BadNumber record 1 column 3"),
    ("menu,choice,n\na,a,1.5\n", "BadNumber record 1 column 3"),
    (
        "menu,choice,n\na,a,1.1234567\n",
        "BadNumber record 1 column 3",
    ),
    (
        "menu,choice,n\na,a,9999999\na,a,10000000\n",
        "TooLarge record 2 column 3",
    ),
    ("menu,choice,n\na,a,0\nb,b,0\n", "NoMenus"),
];

#[test]
fn faults_at_their_places(rt: HostRuntime) -> Result<(), Fail> {
    assert_told(&rt, rt.alloc(), Asked::Read, AT_THEIR_PLACES)
}

/// What is no menu: letters past f, in another order, twice, none, in upper case, with a blank.
const THAT_ARE_NONE: &[(&str, &str)] = &[
    (
        "menu,choice,n\nabcdef,f,1\n",
        "6 letters, menus 63, cells 0:5:1",
    ),
    ("menu,choice,n\nabcdefg,f,1\n", "BadMenu record 1"),
    ("menu,choice,n\nba,a,1\n", "BadMenu record 1"),
    ("menu,choice,n\naa,a,1\n", "BadMenu record 1"),
    ("menu,choice,n\n,a,1\n", "BadMenu record 1"),
    ("menu,choice,n\nA,A,1\n", "BadMenu record 1"),
    ("menu,choice,n\nab ,a,1\n", "BadMenu record 1"),
    ("menu,choice,n\nab,ab,1\n", "BadChoice record 1"),
    ("menu,choice,n\nab,,1\n", "BadChoice record 1"),
    ("menu,choice,n\nab,c,1\n", "BadChoice record 1"),
    ("menu,choice,n\nab, a,1\n", "BadChoice record 1"),
    ("menu,choice,n\nab,a,1\nac,b,0\n", "BadChoice record 2"),
];

#[test]
fn menus_that_are_none(rt: HostRuntime) -> Result<(), Fail> {
    assert_told(&rt, rt.alloc(), Asked::Read, THAT_ARE_NONE)
}

/// The order of faults: by record, in a record by column, then what was chosen, and only then the sizes.
const IN_ORDER: &[(&str, &str)] = &[
    ("menu,choice,n\nba,c,1\n", "BadMenu record 1"),
    ("menu,choice,n\nab,c,1\nba,b,1\n", "BadChoice record 1"),
    ("menu,choice,n\nba,a,x\n", "BadMenu record 1"),
    ("n,menu,choice\nx,ba,a\n", "BadNumber record 1 column 1"),
    ("menu,choice,n\nab,c,x\n", "BadNumber record 1 column 3"),
    (
        "menu,choice,n\nab,a,10000000\nab,c,1\n",
        "BadChoice record 2",
    ),
    ("menu,choice,n\nba,a\n", "Ragged record 1"),
    ("menu,menu,m\n", "TwiceNamed column 2"),
    ("menu,choice,n\nab,a,0\nba,a,0\n", "BadMenu record 2"),
];

#[test]
fn faults_in_order(rt: HostRuntime) -> Result<(), Fail> {
    assert_told(&rt, rt.alloc(), Asked::Read, IN_ORDER)
}

/// The text of a fault is its name alone.
const NAMES: &[(MenuFault, &str)] = &[
    (MenuFault::Empty, "Empty"),
    (MenuFault::Ragged { row: 1 }, "Ragged"),
    (MenuFault::BadHeader { column: 1 }, "BadHeader"),
    (MenuFault::TwiceNamed { column: 1 }, "TwiceNamed"),
    (MenuFault::Unpaired { column: 0 }, "Unpaired"),
    (MenuFault::NoRecords, "NoRecords"),
    (MenuFault::TooManyRecords, "TooManyRecords"),
    (MenuFault::BadNumber { row: 1, column: 1 }, "BadNumber"),
    (
        MenuFault::TooManyDecimals { row: 1, column: 1 },
        "TooManyDecimals",
    ),
    (MenuFault::TooLarge { row: 1, column: 1 }, "TooLarge"),
    (MenuFault::BadMenu { row: 1 }, "BadMenu"),
    (MenuFault::BadChoice { row: 1 }, "BadChoice"),
    (MenuFault::NoMenus, "NoMenus"),
    (MenuFault::TooManyCells { row: 1 }, "TooManyCells"),
    (MenuFault::NoMemory, "NoMemory"),
];

/// Asserts the text of each fault.
fn assert_names(rt: &impl Abort, alloc: Global, cases: &[(MenuFault, &str)]) -> Result<(), Fail> {
    for k in 0..cases.len() {
        let (fault, name) = cases[k];
        let got = fault.to_string(alloc)?;
        assert_text(rt, k, got.as_str(), name);
    }
    Ok(())
}

#[test]
fn faults_are_told_by_name(rt: HostRuntime) -> Result<(), Fail> {
    assert_names(&rt, rt.alloc(), NAMES)
}
