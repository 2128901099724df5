//! The faults of patches and types.
use rp_patch::PatchFault;
use rp_types::TypesFault;
use std::alloc::{AllocError, Global};
use std::test::Fail;

const OF_PATCHES: &[PatchFault] = &[
    PatchFault::TooManyPatches { budget: 24 },
    PatchFault::NeedUnit { budget: 1 },
    PatchFault::NoMemory,
];

const OF_TYPES: &[TypesFault] = &[
    TypesFault::TooManyCombinations,
    TypesFault::TooManyTypes,
    TypesFault::NoMemory,
];

/// The text of each fault, in a line of its own.
fn told(alloc: Global) -> Result<String, AllocError> {
    let mut text = String::new(alloc);
    for fault in OF_PATCHES {
        writeln!(text, "{fault}")?;
    }
    for fault in OF_TYPES {
        writeln!(text, "{fault}")?;
    }
    Ok(text)
}

const NAMES: &str = "\
TooManyPatches
NeedUnit
NoMemory
TooManyCombinations
TooManyTypes
NoMemory
";

/// The text of a fault is its name alone.
#[test]
fn faults_are_told_by_name(rt: HostRuntime) -> Result<(), Fail> {
    let got = told(rt.alloc())?;
    assert_eq!(rt; got.as_str(), NAMES);
    Ok(())
}
