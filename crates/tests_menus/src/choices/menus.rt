//! Reports on choices from menus, and their faults.
use std::test::Fail;
use tests_support::{filled, prints, refuses};

/// The words over choices from menus.
const MENUS: &[&str] = &["rp", "menus", "m.csv"];

/// Choices that orders make, which have a mixture, then choices that none make, which have the greatest share.
const REPORTS: &[(&str, &str)] = &[
    (
        "menu,choice,n\nab,a,1\nab,b,2\n",
        "alternatives 2 menus 1 cells 2 orders 2 total 3\nmenus mixture over 1\n\
         part a b weight 1\npart b a weight 2\nsums least 1 at b in b\n",
    ),
    // A letter alone.
    (
        "menu,choice,n\na,a,5\n",
        "alternatives 1 menus 1 cells 1 orders 1 total 5\nmenus mixture over 1\n\
         part a weight 5\nsums least 5 at a in a\n",
    ),
    // The order b a picks b from the second menu, which is no cell.
    (
        "menu,choice,n\na,a,2\nab,a,1\nab,b,0\n",
        "alternatives 2 menus 2 cells 2 orders 1 total 2\nmenus mixture over 1\n\
         part a b weight 2\nsums least 0 at a in a\n",
    ),
    (
        "menu,choice,n\nabc,a,1\nabc,b,1\nab,b,2\n",
        "alternatives 3 menus 2 cells 3 orders 2 total 2\nmenus violated share 1/2\n\
         weights 0 1 0 over 1\npart b a c weight 1\n",
    ),
    // Each of three letters is taken before the next, and the last before the first.
    (
        "menu,choice,n\nab,a,1\nbc,b,1\nac,c,1\nabc,a,1\n",
        "alternatives 3 menus 4 cells 4 orders 0 total 1\nmenus violated share 0\n\
         weights 0 0 0 0 over 1\nsums least -1 at a in ac\n",
    ),
];

#[test]
fn choices_have_a_mixture_or_the_greatest_share(rt: HostRuntime) -> Result<(), Fail> {
    for (file, out) in REPORTS {
        prints(rt.alloc(), MENUS, &[("m.csv", file)], out)?;
    }
    Ok(())
}

#[test]
fn as_many_units_as_were_asked_for_are_on_each_menu(rt: HostRuntime) -> Result<(), Fail> {
    let words = &["rp", "menus", "m.csv", "--per", "10"];
    let out = "alternatives 2 menus 1 cells 2 orders 2 total 10\napportioned per 10\n\
               menus mixture over 1\npart a b weight 3\npart b a weight 7\n\
               sums least 3 at b in b\n";
    prints(
        rt.alloc(),
        words,
        &[("m.csv", "menu,choice,n\nab,a,1\nab,b,2\n")],
        out,
    )
}

/// Files, and the first fault of each with its place.
const FAULTS: &[(&str, &str)] = &[
    ("", "rp: m.csv: Empty\n"),
    ("menu,choice,m\na,a,1\n", "rp: m.csv: BadHeader column 3\n"),
    ("menu,menu,n\na,a,1\n", "rp: m.csv: TwiceNamed column 2\n"),
    ("menu,choice\na,a\n", "rp: m.csv: Unpaired column 0\n"),
    ("menu,choice,n\n", "rp: m.csv: NoRecords\n"),
    ("menu,choice,n\nab,a\n", "rp: m.csv: Ragged record 1\n"),
    (
        "menu,choice,n\nab,a,1\nab,a,1.5\n",
        "rp: m.csv: BadNumber record 2 column 3\n",
    ),
    (
        "menu,choice,n\nab,a,10000000\n",
        "rp: m.csv: TooLarge record 1 column 3\n",
    ),
    ("menu,choice,n\nba,a,1\n", "rp: m.csv: BadMenu record 1\n"),
    (
        "menu,choice,n\nab,a,1\nab,c,1\n",
        "rp: m.csv: BadChoice record 2\n",
    ),
    ("menu,choice,n\nab,a,0\n", "rp: m.csv: NoMenus\n"),
];

#[test]
fn the_first_fault_of_a_file_is_told_with_its_place(rt: HostRuntime) -> Result<(), Fail> {
    for (file, line) in FAULTS {
        refuses(rt.alloc(), MENUS, &[("m.csv", file)], line)?;
    }
    Ok(())
}

/// Two menus, chosen from so often that the least common multiple is too great a total.
const COPRIME: &[(&str, &str)] = &[("m.csv", "menu,choice,n\na,a,99991\nab,a,99989\n")];

#[test]
fn a_total_that_is_too_great_needs_a_unit(rt: HostRuntime) -> Result<(), Fail> {
    refuses(rt.alloc(), MENUS, COPRIME, "rp: NeedUnit menu 2\n")?;
    let words = &["rp", "menus", "--per", "100", "m.csv"];
    let out = "alternatives 2 menus 2 cells 2 orders 1 total 100\napportioned per 100\n\
               menus mixture over 1\npart a b weight 100\nsums least 0 at a in a\n";
    prints(rt.alloc(), words, COPRIME, out)
}

/// Line feeds alone are no record; with a byte past the limit the choices are not looked at.
#[test]
fn choices_of_the_most_bytes_and_of_one_more(rt: HostRuntime) -> Result<(), Fail> {
    for (size, line) in [
        (4_194_304, "rp: m.csv: Empty\n"),
        (4_194_305, "rp: m.csv: TooLong\n"),
    ] {
        let choices = filled(rt.alloc(), b'\n', size)?;
        refuses(rt.alloc(), MENUS, &[("m.csv", choices.as_str())], line)?;
    }
    Ok(())
}
