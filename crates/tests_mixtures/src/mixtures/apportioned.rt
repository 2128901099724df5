//! Units of the places of two groups.
ghost use Rattle.std.specs.Prelude.{◌<◌, ◌≤◌, IfSome};
ghost use Rattle.rp_limits.specs.declared.patch.TheConstants.{UNITS};

use rp_limits::patch::UNITS;
use rp_patch::{ApportionFault, apportion};
use std::alloc::{AllocError, Global};
use std::process::Abort;
use std::test::Fail;

/// The units of each place, and the total.
fn units_text(alloc: Global, units: &[u64], total: u64) -> Result<String, AllocError> {
    let mut text = String::new(alloc);
    for units in units {
        write!(text, "{units} ")?;
    }
    write!(text, "of {total}")?;
    Ok(text)
}

/// The units of two places of one group and then of two of another, and the total, or the fault with its group from 1.
fn told_units(
    alloc: Global,
    a: u32,
    b: u32,
    c: u32,
    d: u32,
    unit: Option<u32>,
) -> Result<String, AllocError>
    requires first { 0 < a }
    requires second { 0 < c }
    requires unit { IfSome unit (λ n. (1 ≤ n) × (n ≤ UNITS)) }
{
    let counts = [u64::from(a), u64::from(b), u64::from(c), u64::from(d)];
    match apportion(alloc, &[0, 0, 1, 1], &counts, unit) {
        Ok(made) => units_text(alloc, made.units.as_slice(), made.total),
        Err(ApportionFault::NeedUnit { group }) => {
            let group = u64::from(group) + 1;
            format!(in alloc; "NeedUnit {group}")
        }
        Err(ApportionFault::NoMemory) => String::from_str(alloc, "NoMemory"),
    }
}

/// The counts of the places, the unit that is asked for, and what is told.
type Case = ((u32, u32, u32, u32), Option<u32>, &'static str);

const UNITS_OF_GROUPS: &[Case] = &[
    ((1, 2, 2, 2), None, "4 8 6 6 of 12"),
    ((3, 0, 1, 0), None, "3 0 3 0 of 3"),
    (
        (511, 1, 1953124, 1),
        None,
        "998046875 1953125 999999488 512 of 1000000000",
    ),
    (
        (999999999, 1, 1, 0),
        None,
        "999999999 1 1000000000 0 of 1000000000",
    ),
    ((19018, 1, 52578, 1), None, "NeedUnit 2"),
    ((1000000000, 1, 1, 0), None, "NeedUnit 1"),
    ((1, 1, 2, 2), Some(4), "2 2 2 2 of 4"),
    ((1, 1, 1, 3), Some(5), "3 2 1 4 of 5"),
    ((1, 2, 2, 2), Some(1), "0 1 1 0 of 1"),
    (
        (4294967295, 4294967295, 1, 4294967295),
        Some(3),
        "2 1 0 3 of 3",
    ),
    (
        (19018, 1, 52578, 1),
        Some(1000000000),
        "999947421 52579 999980981 19019 of 1000000000",
    ),
];

/// Asserts what is told of a case.
fn assert_units(rt: &impl Abort, alloc: Global, case: Case) -> Result<(), Fail> {
    let (counts, unit, told) = case;
    let (a, b, c, d) = counts;
    assert!(rt; 0 < a && 0 < c);
    if let Some(unit) = unit {
        assert!(rt; 1 <= unit && unit <= UNITS);
    }
    let got = told_units(alloc, a, b, c, d, unit)?;
    assert_eq!(rt; got.as_str(), told);
    Ok(())
}

/// Without a unit the least common multiple of the groups' sums, up to 1,000,000,000: 2^9 * 5^9 is that, 19019 * 52579
/// one more. With a unit whole parts, and one more for the largest rests, the earlier of equal ones.
#[test]
fn units_of_groups(rt: HostRuntime) -> Result<(), Fail> {
    for case in UNITS_OF_GROUPS {
        assert_units(&rt, rt.alloc(), *case)?;
    }
    Ok(())
}
