//! What budgets and choices in files come to, in a line.
ghost use Rattle.std.specs.Prelude.{◌≤◌, IfSome, length};
ghost use Rattle.rp_limits.specs.declared.patch.TheConstants.{PATCHES};

use rp_evidence::{RandomPart, Share};
use rp_generated::{SEARCH_STEPS, generated};
use rp_limits::patch::UNITS;
use rp_patch::of_choices::patches;
use rp_patch::{PatchFault, Patches};
use rp_random::random;
use rp_text::{read_budgets, read_choices};
use rp_types::{Rational, rational_types};
use std::alloc::{AllocError, Global};
use std::process::Abort;
use std::test::Fail;

/// What is asked of budgets and choices.
#[derive(Clone, Copy)]
pub(crate) enum Ask {
    /// The patches, each with its budget, from 1, its signs and its units, and then the total.
    Patches,
    /// How many patches there are.
    PatchCount,
    /// The rational types, each with its patches from 1.
    Types,
    /// How many patches and rational types there are.
    Counts,
    /// The evidence on random choices, its patches from 1.
    Evidence,
    /// The evidence on random choices by generated types, its patches from 1.
    Generated,
    /// How much of the total these have, where they make no mixture.
    GeneratedShare,
}

/// The sign of a number.
fn sign_text(sign: i8) -> &'static str {
    if sign > 0 {
        "+"
    } else if sign < 0 {
        "-"
    } else {
        "0"
    }
}

fn patches_text(alloc: Global, made: &Patches) -> Result<String, AllocError> {
    let mut text = String::new(alloc);
    for i in 0..made.count() {
        let (budget, units) = (u64::from(made.budget_of(i)) + 1, made.units(i));
        write!(text, "{budget}:")?;
        for k in 0..made.budgets() {
            text.push_str(sign_text(made.sign(i, k)))?;
        }
        write!(text, " {units}, ")?;
    }
    let total = made.total();
    write!(text, "total {total}")?;
    Ok(text)
}

/// The numbers of patches, from 1, with a space before each.
fn push_patches(text: &mut String, patches: &[u32]) -> Result<(), AllocError> {
    for patch in patches {
        let patch = u64::from(*patch) + 1;
        write!(text, " {patch}")?;
    }
    Ok(())
}

fn types_text(alloc: Global, types: &[Rational]) -> Result<String, AllocError> {
    let mut text = String::new(alloc);
    for one in types {
        if !text.is_empty() {
            text.push_str(",")?;
        }
        push_patches(&mut text, one.patches.as_slice())?;
    }
    Ok(text)
}

/// The numbers, with a space before each.
fn push_weights(text: &mut String, weights: &[u64]) -> Result<(), AllocError> {
    for weight in weights {
        write!(text, " {weight}")?;
    }
    Ok(())
}

/// Each part: its patches, from 1, and its weight.
fn push_parts(text: &mut String, parts: &[Share]) -> Result<(), AllocError> {
    for part in parts {
        text.push_str(",")?;
        push_patches(text, part.patches.as_slice())?;
        let weight = part.weight;
        write!(text, " weight {weight}")?;
    }
    Ok(())
}

fn evidence_text(alloc: Global, part: &RandomPart) -> Result<String, AllocError> {
    let mut text = String::new(alloc);
    match part {
        RandomPart::Mixture { den, parts } => {
            write!(text, "mixture over {den}")?;
            push_parts(&mut text, parts.as_slice())?;
        }
        RandomPart::Violated {
            den,
            parts,
            weights,
        } => {
            text.push_str("violated, weights")?;
            push_weights(&mut text, weights.as_slice())?;
            write!(text, " over {den}")?;
            push_parts(&mut text, parts.as_slice())?;
        }
        RandomPart::Wide { step } => write!(text, "withheld {step}")?,
    }
    Ok(text)
}

/// How much of the total the parts have, whole and what is left.
pub(crate) fn share_text(
    alloc: Global,
    part: &RandomPart,
    total: u64,
) -> Result<String, AllocError> {
    match part {
        RandomPart::Violated { den, parts, .. } if *den > 0 => {
            let mut weight: u128 = 0;
            for part in parts.as_slice() {
                weight = weight.wrapping_add(u128::from(part.weight));
            }
            let whole = u64::try_from(weight / u128::from(*den)).unwrap_or(u64::MAX);
            let rest = u64::try_from(weight % u128::from(*den)).unwrap_or(u64::MAX);
            format!(in alloc; "violated, {whole} and {rest} left of {total}")
        }
        RandomPart::Mixture { .. } => format!(in alloc; "mixture of {total}"),
        _ => format!(in alloc; "withheld"),
    }
}

/// The rational types or the counts, or why there is no list of types.
fn told_types(alloc: Global, ask: Ask, made: &Patches) -> Result<String, AllocError> {
    let types = match rational_types(alloc, made) {
        Ok(types) => types,
        Err(fault) => return fault.to_string(alloc),
    };
    if let Ask::Types = ask {
        return types_text(alloc, types.as_slice());
    }
    let (patches, types) = (made.count(), types.as_slice().len());
    format!(in alloc; "{patches} patches, {types} types")
}

fn told_evidence(alloc: Global, made: &Patches) -> Result<String, Fail>
    requires { length made.now.patches ≤ PATCHES }
{
    let types = rational_types(alloc, made)?;
    let part = random(alloc, made, &types)?;
    Ok(evidence_text(alloc, &part)?)
}

/// What these patches come to.
fn told_of(alloc: Global, ask: Ask, made: &Patches) -> Result<String, Fail>
    requires { length made.now.patches ≤ PATCHES }
{
    match ask {
        Ask::Patches => Ok(patches_text(alloc, made)?),
        Ask::PatchCount => {
            let patches = made.count();
            Ok(format!(in alloc; "{patches} patches")?)
        }
        Ask::Types | Ask::Counts => Ok(told_types(alloc, ask, made)?),
        Ask::Evidence => told_evidence(alloc, made),
        Ask::Generated => Ok(evidence_text(alloc, &generated(alloc, made, SEARCH_STEPS)?)?),
        Ask::GeneratedShare => Ok(share_text(
            alloc,
            &generated(alloc, made, SEARCH_STEPS)?,
            made.total(),
        )?),
    }
}

/// The fault, with its budget from 1.
pub(crate) fn told_fault(alloc: Global, fault: PatchFault) -> Result<String, AllocError> {
    match fault {
        PatchFault::TooManyPatches { budget } | PatchFault::NeedUnit { budget } => {
            let budget = u64::from(budget) + 1;
            format!(in alloc; "{fault} {budget}")
        }
        PatchFault::NoMemory => fault.to_string(alloc),
    }
}

/// What the files come to, in a line, or the fault.
fn told(
    alloc: Global,
    ask: Ask,
    budgets: &str,
    choices: &str,
    unit: Option<u32>,
) -> Result<String, Fail>
    requires { IfSome unit (λ n. (1 ≤ n) × (n ≤ UNITS)) }
{
    let budgets = read_budgets(alloc, budgets.as_bytes())?;
    let choices = read_choices(alloc, choices.as_bytes(), &budgets)?;
    match patches(alloc, &budgets, &choices, unit) {
        Ok(made) => told_of(alloc, ask, &made),
        Err(fault) => Ok(told_fault(alloc, fault)?),
    }
}

/// Asserts what the files come to.
pub(crate) fn assert_told(
    rt: &impl Abort,
    alloc: Global,
    ask: Ask,
    budgets: &str,
    choices: &str,
    unit: Option<u32>,
    wanted: &str,
) -> Result<(), Fail>
    requires { IfSome unit (λ n. (1 ≤ n) × (n ≤ UNITS)) }
{
    let got = told(alloc, ask, budgets, choices, unit)?;
    assert!(rt; got.as_str() == wanted, "{choices} => {got}");
    Ok(())
}

/// Asserts what choices from budgets come to without a unit. A line has the lines of the choices, each with a bar at
/// its end, an arrow, and what is told.
pub(crate) fn assert_each(
    rt: &impl Abort,
    alloc: Global,
    ask: Ask,
    budgets: &str,
    cases: &str,
) -> Result<(), Fail> {
    for case in cases.lines() {
        let (lines, wanted) = case.split_once(" => ").unwrap_or((case, ""));
        let choices = lines.replace(alloc, '|', "\n")?;
        assert_told(rt, alloc, ask, budgets, choices.as_str(), None, wanted)?;
    }
    Ok(())
}
