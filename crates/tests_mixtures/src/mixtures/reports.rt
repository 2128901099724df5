//! Reports on random choices.
ghost use Rattle.std.specs.Prelude.{◌≤◌, All, IfSome};
ghost use Rattle.rp_evidence.specs.Kinds.{IsOfKind};
ghost use Rattle.rp_evidence.specs.declared.certificate.Kind.TheVariants.{Random as RandomKind};

use crate::mixtures::forged::{alone, assert_text, certificate, followed, patches_of};
use rp_check::{Verdict, check_random};
use rp_evidence::Item;
use rp_limits::patch::UNITS;
use rp_patch::Patches;
use rp_random::random;
use rp_report::report_random;
use rp_types::rational_types;
use std::alloc::Global;
use std::process::Abort;
use std::test::Fail;
use tests_inputs::choices::{
    COPRIME, CROSSED, IRRATIONAL, MIXTURE, ONE_BUDGET, ONE_CHOICE, VIOLATION,
};

/// The report of these items, or that they are not accepted.
fn reported(alloc: Global, patches: &Patches, types: u32, items: Vec<Item>) -> Result<String, Fail>
    requires { All (IsOfKind RandomKind) items.items }
{
    let certificate = certificate(alloc, items);
    match check_random(patches, &certificate) {
        Verdict::Accepted => {
            let text = report_random(alloc, &certificate, patches, Some(types))?;
            Ok(String::from_utf8(text)?)
        }
        Verdict::Rejected { .. } => Ok(String::from_str(alloc, "rejected")?),
    }
}

/// The report of what is found of the files.
fn found(alloc: Global, budgets: &str, choices: &str, unit: Option<u32>) -> Result<String, Fail>
    requires { IfSome unit (λ n. (1 ≤ n) × (n ≤ UNITS)) }
{
    let patches = patches_of(alloc, budgets, choices, unit)?;
    let types = rational_types(alloc, &patches)?;
    let part = random(alloc, &patches, &types)?;
    let mut items = Vec::new(alloc);
    items.push(Item::Random {
        total: patches.total(),
        part,
    })?;
    reported(alloc, &patches, types.as_slice().len() as u32, items)
}

/// Budgets, choices, the unit that is asked for, and the report.
type Case = (&'static str, &'static str, Option<u32>, &'static str);

const ONE_EACH: &str =
    "budget,q_a,q_b,q_c,n\n1,0,2,2,1\n1,1,0,0,1\n2,2,0,2,1\n2,0,1,0,1\n3,2,2,0,1\n3,0,0,1,1\n";

const FOUND: &[Case] = &[
    (
        CROSSED,
        VIOLATION,
        None,
        "budgets 2 patches 4 types 3 total 4\nrandom violated share 3/4\nweights 1 0 1 0 over 1\npart 1 4 weight 1\npart 2 3 weight 2\n",
    ),
    (
        CROSSED,
        VIOLATION,
        Some(100),
        "budgets 2 patches 4 types 3 total 100\napportioned per 100\nrandom violated share 3/4\nweights 1 0 1 0 over 1\npart 1 4 weight 25\npart 2 3 weight 50\n",
    ),
    (
        CROSSED,
        MIXTURE,
        None,
        "budgets 2 patches 4 types 3 total 4\nrandom mixture over 1\npart 1 3 weight 1\npart 1 4 weight 2\npart 2 3 weight 1\n",
    ),
    (
        CROSSED,
        COPRIME,
        Some(100),
        "budgets 2 patches 2 types 1 total 100\napportioned per 100\nrandom mixture over 1\npart 1 2 weight 100\n",
    ),
    // no type is rational
    (
        CROSSED,
        IRRATIONAL,
        None,
        "budgets 2 patches 2 types 0 total 1\nrandom violated share 0\nweights 0 0 over 1\n",
    ),
    (
        ONE_BUDGET,
        ONE_CHOICE,
        None,
        "budgets 1 patches 1 types 1 total 7\nrandom mixture over 1\npart 1 weight 7\n",
    ),
    // of the patches below the other budgets a type takes at most one, so each of the others has a half of two
    // types
    (
        "p_a,p_b,p_c,w\n4,1,1,4\n1,4,1,4\n1,1,4,4\n",
        ONE_EACH,
        None,
        "budgets 3 patches 6 types 4 total 2\nrandom violated share 3/4\nweights 1 0 1 0 1 0 over 2\npart 1 3 6 weight 1\npart 1 4 5 weight 1\npart 2 3 5 weight 1\n",
    ),
];

/// Asserts the report of what is found of the files of a case.
fn assert_found(rt: &impl Abort, alloc: Global, case: Case) -> Result<(), Fail> {
    let (budgets, choices, unit, expected) = case;
    if let Some(unit) = unit {
        assert!(rt; 1 <= unit && unit <= UNITS, "{choices}");
    }
    let got = found(alloc, budgets, choices, unit)?;
    assert!(rt; got.as_str() == expected, "{choices} {got}");
    Ok(())
}

/// What is found is reported, by budget files and choices whose verdict is known.
#[test]
fn reports_of_what_is_found(rt: HostRuntime) -> Result<(), Fail> {
    for case in FOUND {
        assert_found(&rt, rt.alloc(), *case)?;
    }
    Ok(())
}

/// The report of a violation and of what is withheld.
fn report_of_two(alloc: Global) -> Result<String, Fail> {
    let patches = patches_of(alloc, CROSSED, VIOLATION, None)?;
    let items = followed(
        alloc,
        "4;2; 0 3:2, 1 2:4; 2 0 2 0",
        18_446_744_073_709_551_615,
    )?;
    reported(alloc, &patches, 3, items)
}

/// Choices of which each budget has one on the line of the other, so that every type is rational.
const ON_LINES: &str = "budget,q_a,q_b,n\n1,2,1,1\n1,1,1,1\n2,1,2,1\n2,1,1,1\n";

/// The report of a mixture of all types.
fn report_of_mixture(alloc: Global) -> Result<String, Fail> {
    let patches = patches_of(alloc, CROSSED, ON_LINES, None)?;
    let items = alone(alloc, "2;2; 0 2:1, 0 3:1, 1 2:1, 1 3:1")?;
    reported(alloc, &patches, 4, items)
}

/// The report of no evidence.
fn report_of_none(alloc: Global) -> Result<String, Fail> {
    let patches = patches_of(alloc, CROSSED, ON_LINES, None)?;
    reported(alloc, &patches, 4, Vec::new(alloc))
}

const OF_TWO: &str = "\
budgets 2 patches 4 types 3 total 4
random violated share 3/4
weights 2 0 2 0 over 2
part 1 4 weight 2
part 2 3 weight 4
random withheld 18446744073709551615
";

const OF_ALL_TYPES: &str = "\
budgets 2 patches 4 types 4 total 2
random mixture over 2
part 1 3 weight 1
part 1 4 weight 1
part 2 3 weight 1
part 2 4 weight 1
";

const OF_NONE: &str = "budgets 2 patches 4 types 4 total 2\n";

/// Evidence from elsewhere: its numbers are reported as they stand, and the share in lowest terms.
#[test]
fn reports_of_other_evidence(rt: HostRuntime) -> Result<(), Fail> {
    assert_text(&rt, "two types", report_of_two(rt.alloc())?, OF_TWO);
    assert_text(
        &rt,
        "all types",
        report_of_mixture(rt.alloc())?,
        OF_ALL_TYPES,
    );
    assert_text(&rt, "none", report_of_none(rt.alloc())?, OF_NONE);
    Ok(())
}
