//! What is asked of the choices in a file, as tables of cases that one loop goes through. No clause speaks of the rows.
use crate::menus::evidence::{Evidence, accepts, reported};
use crate::menus::found::found;
use crate::menus::given::{told_menus, told_units};
use crate::menus::sums::sums;
use std::alloc::Global;
use std::process::Abort;
use std::test::Fail;

/// What is asked, with so many units on each menu where some are given.
#[derive(Clone, Copy)]
pub(crate) enum Asked {
    /// The menus of a file, or its fault.
    Read,
    Units(Option<u32>),
    /// The sums over menus that hold a menu.
    Sums,
    /// The evidence that is found.
    Found(Option<u32>),
    /// The report on given evidence.
    Reported(Option<u32>, Evidence),
}

/// What a file comes to.
fn told(rt: &impl Abort, alloc: Global, asked: Asked, file: &str) -> Result<String, Fail> {
    match asked {
        Asked::Read => told_menus(alloc, file),
        Asked::Units(unit) => told_units(rt, alloc, file, unit),
        Asked::Sums => sums(rt, alloc, file),
        Asked::Found(unit) => found(rt, alloc, file, unit),
        Asked::Reported(unit, evidence) => reported(rt, alloc, file, unit, evidence),
    }
}

/// Asserts what case `k` of a table, from 0, comes to.
pub(crate) fn assert_text(rt: &impl Abort, k: usize, got: &str, expected: &str) {
    assert_eq!(rt; got, expected, "case {k}");
}

/// Asserts what each file comes to.
pub(crate) fn assert_told(
    rt: &impl Abort,
    alloc: Global,
    asked: Asked,
    cases: &[(&str, &str)],
) -> Result<(), Fail> {
    for k in 0..cases.len() {
        let (file, expected) = cases[k];
        let got = told(rt, alloc, asked, file)?;
        assert_text(rt, k, got.as_str(), expected);
    }
    Ok(())
}

/// Asserts of each evidence on the choices of a file whether it is accepted.
pub(crate) fn assert_accepts(
    rt: &impl Abort,
    alloc: Global,
    file: &str,
    cases: &[(Evidence, bool)],
) -> Result<(), Fail> {
    for k in 0..cases.len() {
        let (evidence, expected) = cases[k];
        let got = accepts(rt, alloc, file, evidence)?;
        assert!(rt; got == expected, "case {k}");
    }
    Ok(())
}
