//! The patches that choices fall in, with their units.
ghost use Rattle.std.specs.Prelude.{◌≡◌, ◌≤◌, IfErr, IfOk, IfSome, length, slice_index};
ghost use Rattle.rp_patch.specs.Apportionment.{AreFilled, AreGrouped, HasShares};
ghost use Rattle.rp_patch.specs.Choices.{AreChoicesFrom, random_input_of};
ghost use Rattle.rp_patch.specs.InnerUnited.{AreUnited, SaysWhyNotShared, budgets_of as budgets_of_all};
ghost use Rattle.rp_patch.specs.InnerUnited.{counts_of, times_of as times_of_all};
ghost use Rattle.rp_patch.specs.Patches.{IsPatchList};
ghost use Rattle.rp_patch.specs.Units.{ArePatchesOf, SaysWhy, SaysWhyWithin};
ghost use Rattle.rp_limits.specs.declared.generated.TheConstants as generated;
ghost use Rattle.rp_limits.specs.declared.patch.TheConstants.{UNITS};

use crate::apportionment::{Units, apportion};
use crate::chosen::{Chosen, all_chosen};
use crate::patch_list::Patch;
use crate::{ApportionFault, PatchFault};
use rp_limits::patch::PATCHES;
use rp_num::{NoMemory, Seq};
use rp_table::{Budgets, Choices};
use std::alloc::Global;

/// The patches that were chosen, few enough that all types may be listed: by budget and then by the first choice that
/// falls in them, and their units: exact where none are asked for, else that many on each budget, by largest remainders.
pub fn patches(
    alloc: Global,
    budgets: &Budgets,
    choices: &Choices,
    unit: Option<u32>,
) -> Result<crate::patch_list::Patches, PatchFault>
    requires from { AreChoicesFrom budgets.now choices.now }
    requires unit { IfSome unit (λ n. (1 ≤ n) × (n ≤ UNITS)) }
    ensures exact { IfOk result (ArePatchesOf (random_input_of budgets.now choices.now) unit) }
    ensures valid { IfOk result IsPatchList }
    ensures few { IfOk result (λ p. length p.patches ≤ PATCHES) }
    ensures refused { IfErr result (SaysWhy (random_input_of budgets.now choices.now) unit) }
{
    patches_within(alloc, budgets, choices, unit, PATCHES)
}

/// The patches that were chosen, where there are no more than so many, and their units.
pub fn patches_within(
    alloc: Global,
    budgets: &Budgets,
    choices: &Choices,
    unit: Option<u32>,
    most: u32,
) -> Result<crate::patch_list::Patches, PatchFault>
    requires from { AreChoicesFrom budgets.now choices.now }
    requires unit { IfSome unit (λ n. (1 ≤ n) × (n ≤ UNITS)) }
    requires most { most ≤ generated.PATCHES }
    ensures exact { IfOk result (ArePatchesOf (random_input_of budgets.now choices.now) unit) }
    ensures valid { IfOk result IsPatchList }
    ensures few { IfOk result (λ p. length p.patches ≤ most) }
    ensures refused { IfErr result
        (SaysWhyWithin (random_input_of budgets.now choices.now) unit most) }
{
    prove!(choices.count() > 0);
    let chosen = all_chosen(alloc, budgets, choices, most)?;
    let shared = shared_out(alloc, chosen.as_slice(), unit)?;
    let united = united(alloc, chosen.as_slice(), shared.units.as_slice())?;
    Ok(crate::patch_list::Patches::make(budgets.count(), united, shared.total, unit))
}

/// The budgets of what was chosen.
fn budgets_of(alloc: Global, chosen: &[Chosen]) -> Result<Vec<u32>, NoMemory>
    ensures { IfOk result (λ budgets. budgets.items ≡ budgets_of_all chosen.now) }
{
    let mut budgets = Vec::new(alloc);
    for one in chosen {
        budgets.push(one.budget)?;
    }
    Ok(budgets)
}

/// How many times each was chosen.
fn times_of(alloc: Global, chosen: &[Chosen]) -> Result<Vec<u64>, NoMemory>
    ensures { IfOk result (λ times. times.items ≡ times_of_all chosen.now) }
{
    let mut times = Vec::new(alloc);
    for one in chosen {
        times.push(one.times)?;
    }
    Ok(times)
}

/// The units of what was chosen.
fn shared_out(alloc: Global, chosen: &[Chosen], unit: Option<u32>) -> Result<Units, PatchFault>
    requires grouped { AreGrouped (budgets_of_all chosen.now) (times_of_all chosen.now) }
    requires unit { IfSome unit (λ n. (1 ≤ n) × (n ≤ UNITS)) }
    ensures exact { IfOk result (λ made. HasShares (counts_of chosen.now) unit made.total
        (slice_index made.units)) }
    ensures each { IfOk result (λ made. length made.units ≡ length chosen.now) }
    ensures within { IfOk result (λ made. (1 ≤ made.total) × (made.total ≤ UNITS)) }
    ensures filled { IfOk result (λ made. AreFilled (counts_of chosen.now) made.total
        (slice_index made.units)) }
    ensures refused { IfErr result (SaysWhyNotShared (counts_of chosen.now) unit) }
{
    let budgets = budgets_of(alloc, chosen)?;
    let times = times_of(alloc, chosen)?;
    match apportion(alloc, budgets.as_slice(), times.as_slice(), unit) {
        Ok(units) => Ok(units),
        Err(ApportionFault::NeedUnit { group }) => Err(PatchFault::NeedUnit { budget: group }),
        Err(ApportionFault::NoMemory) => Err(PatchFault::NoMemory),
    }
}

/// What was chosen, as patches with their units.
fn united(alloc: Global, chosen: &[Chosen], units: &[u64]) -> Result<Vec<Patch>, NoMemory>
    requires { length units.now ≡ length chosen.now }
    ensures { IfOk result (λ patches. AreUnited chosen.now units.now (length chosen.now)
        patches.items) }
{
    let mut patches = Vec::new(alloc);
    for i in 0..chosen.len() {
        patches.push(patch(alloc, &chosen[i], units[i])?)?;
    }
    Ok(patches)
}

/// One that was chosen as a patch with so many units.
fn patch(alloc: Global, one: &Chosen, units: u64) -> Result<Patch, NoMemory>
    ensures { IfOk result (λ patch. patch
        ≡ record { budget = one.now.budget; signs = one.now.signs; units = units }) }
{
    Ok(Patch {
        budget: one.budget,
        signs: Seq::from_vec(Vec::from_slice(alloc, one.signs.as_slice())?),
        units,
    })
}
