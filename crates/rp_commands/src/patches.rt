//! The patches of choices from budgets, with their rational types where these are listed, or why they are refused.
ghost use Rattle.std.specs.Prelude.{◌≡◌, ◌≢◌, ◌≤◌, IfOk, IfErr, MatchResult, None, Ok, length};
ghost use Rattle.rp_patch.specs.Choices.{AreChoicesFrom};
ghost use Rattle.rp_commands.specs.InnerCauses.{IsPatchRefusal, IsReadingCause, IsTypesRefusal};
ghost use Rattle.rp_answers.specs.ChoiceLimits.{most_patches};
ghost use Rattle.rp_answers.specs.Typed.{AreTypedIfListed};
ghost use Rattle.rp_commands.specs.ChoiceContents.{TypedPatchesOf, TypesOf};
ghost use Rattle.rp_command_line.specs.Ranges.{IsUnit};
ghost use Rattle.rp_types.specs.declared.fault.TypesFault.TheVariants as types_fault;

use crate::fault_text::ordinal_line;
use crate::files::Cause;
use rp_answers::{ChoiceLimits, Edition};
use rp_limits::patch::PATCHES;
use rp_num::{NoMemory, Seq};
use rp_patch::of_choices::patches_within;
use rp_patch::{PatchFault, Patches};
use rp_table::{Budgets, Choices};
use rp_types::{Rational, TypesFault, rational_types};
use std::alloc::Global;

/// The patches of choices from budgets, with so many units on each budget where that is asked for, and their rational
/// types where these are listed.
pub(crate) fn patches_of<'a, P: Edition>(
    alloc: Global,
    budgets: &Budgets,
    choices: &Choices,
    per: Option<u32>,
) -> Result<(Patches, Option<Seq<Rational>>), Cause<'a>>
    requires from { AreChoicesFrom budgets.now choices.now }
    requires unit { IsUnit per }
    ensures made { IfOk result (λ both.
        TypedPatchesOf P.printed.limits budgets.now choices.now per (Ok (both.0, both.1))) }
    ensures typed { IfOk result (λ both. AreTypedIfListed both.0 both.1) }
    ensures caused { IfErr result
        (IsReadingCause (TypedPatchesOf P.printed.limits budgets.now choices.now per)) }
{
    patches_by(alloc, budgets, choices, per, P::limits())
}

/// The patches of choices from budgets by these limits, with so many units on each budget where that is asked for, and their
/// rational types where these are listed.
pub fn patches_by<'a>(
    alloc: Global,
    budgets: &Budgets,
    choices: &Choices,
    per: Option<u32>,
    limits: ChoiceLimits,
) -> Result<(Patches, Option<Seq<Rational>>), Cause<'a>>
    requires from { AreChoicesFrom budgets.now choices.now }
    requires unit { IsUnit per }
    ensures made { IfOk result (λ both.
        TypedPatchesOf limits budgets.now choices.now per (Ok (both.0, both.1))) }
    ensures typed { IfOk result (λ both. AreTypedIfListed both.0 both.1) }
    ensures caused { IfErr result
        (IsReadingCause (TypedPatchesOf limits budgets.now choices.now per)) }
{
    let made = match patches_within(alloc, budgets, choices, per, limits.most_patches()) {
        Ok(made) => made,
        Err(fault) => return Err(patches_refused(alloc, fault)),
    };
    let types = types_of(alloc, &made, limits)?;
    Ok((made, types))
}

/// The rational types of patches, where these are listed.
fn types_of<'a>(
    alloc: Global,
    patches: &Patches,
    limits: ChoiceLimits,
) -> Result<Option<Seq<Rational>>, Cause<'a>>
    requires { length patches.now.patches ≤ most_patches limits }
    ensures made { IfOk result (λ types. TypesOf limits patches.now (Ok types)) }
    ensures typed { IfOk result (AreTypedIfListed patches.now) }
    ensures caused { IfErr result (IsReadingCause (TypesOf limits patches.now)) }
{
    if patches.count() > PATCHES {
        return Ok(None);
    }
    match rational_types(alloc, patches) {
        Ok(types) => Ok(Some(types)),
        Err(fault) => match limits {
            ChoiceLimits::Listed => Err(types_refused(alloc, fault)),
            ChoiceLimits::Unlisted => unlisted(fault),
        },
    }
}

/// No list of rational types, or want of memory.
fn unlisted<'a>(fault: TypesFault) -> Result<Option<Seq<Rational>>, Cause<'a>>
    ensures { MatchResult result
        (λ types. (types ≡ None) × (fault ≢ types_fault.NoMemory))
        (λ why. why ≡ Cause.NoMemory) }
{
    match fault {
        TypesFault::TooManyCombinations | TypesFault::TooManyTypes => Ok(None),
        TypesFault::NoMemory => Err(Cause::NoMemory),
    }
}

/// The cause that a fault of patches is. Budgets are told from 1.
fn patches_refused<'a>(alloc: Global, fault: PatchFault) -> Cause<'a>
    ensures { IsPatchRefusal fault result }
{
    let line = match fault {
        PatchFault::TooManyPatches { budget } => {
            ordinal_line(alloc, b"rp: TooManyPatches budget ", budget)
        }
        PatchFault::NeedUnit { budget } => ordinal_line(alloc, b"rp: NeedUnit budget ", budget),
        PatchFault::NoMemory => Err(NoMemory),
    };
    match line {
        Ok(line) => Cause::Refused(line),
        Err(_) => Cause::NoMemory,
    }
}

/// The cause that a fault of rational types is.
fn types_refused<'a>(alloc: Global, fault: TypesFault) -> Cause<'a>
    ensures { IsTypesRefusal fault result }
{
    let told: &'static [u8] = match fault {
        TypesFault::TooManyCombinations => b"rp: TooManyCombinations\n",
        TypesFault::TooManyTypes => b"rp: TooManyTypes\n",
        TypesFault::NoMemory => return Cause::NoMemory,
    };
    match Vec::from_slice(alloc, told) {
        Ok(line) => Cause::Refused(line),
        Err(_) => Cause::NoMemory,
    }
}
