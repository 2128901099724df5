//! The answer of `patches`.
ghost use Rattle.std.specs.Prelude.{◌≡◌, ◌<◌, ◌++◌, IfOk, OnOk, length};
ghost use Rattle.rp_answers.specs.PatchesText.{IsPatchesText, all_counts_text, patch_text};
ghost use Rattle.rp_answers.specs.PatchesText.{side_text, side_of_patch, sides_below};

use rp_num::NoMemory;
use rp_patch::Patches;
use rp_print::{LongNumber, Number, Ordinal, push_after, push_apportioned};
use std::alloc::Global;
use std::cmp::Ordering;

/// The patches that choices from budgets fall in, a line each, with the sides of all budgets on which they lie.
pub fn patches_text(alloc: Global, patches: &Patches) -> Result<Vec<u8>, NoMemory>
    ensures { IfOk result (λ text. IsPatchesText patches.now text.items) }
{
    let mut text = Vec::new(alloc);
    push_all_counts(alloc, &mut text, patches)?;
    push_apportioned(alloc, &mut text, patches.asked())?;
    for i in 0..patches.count() {
        push_patch(alloc, &mut text, patches, i)?;
    }
    Ok(text)
}

/// Appends the line on all patches.
fn push_all_counts(alloc: Global, out: &mut Vec<u8>, patches: &Patches) -> Result<(), NoMemory>
    ensures { OnOk result (out.new.items ≡ out.old.items ++ all_counts_text patches.now) }
{
    push_after::<Number>(alloc, out, b"budgets ", patches.budgets())?;
    push_after::<Number>(alloc, out, b" patches ", patches.count())?;
    push_after::<LongNumber>(alloc, out, b" total ", patches.total())?;
    out.push(b'\n')?;
    Ok(())
}

/// Appends the line of a patch.
fn push_patch(alloc: Global, out: &mut Vec<u8>, patches: &Patches, i: u32) -> Result<(), NoMemory>
    requires { i < length patches.now.patches }
    ensures { OnOk result (out.new.items ≡ out.old.items ++ patch_text patches.now i) }
{
    push_after::<Ordinal>(alloc, out, b"patch ", i)?;
    push_after::<Ordinal>(alloc, out, b" budget ", patches.budget_of(i))?;
    push_after::<LongNumber>(alloc, out, b" units ", patches.units(i))?;
    out.extend_from_slice(b" sides")?;
    push_sides(out, patches, i)?;
    out.push(b'\n')?;
    Ok(())
}

/// Appends the sides of all budgets on which a patch lies.
fn push_sides(out: &mut Vec<u8>, patches: &Patches, i: u32) -> Result<(), NoMemory>
    requires { i < length patches.now.patches }
    ensures { OnOk result (out.new.items
        ≡ out.old.items ++ sides_below patches.now i patches.now.budgets) }
{
    for k in 0..patches.budgets() {
        out.extend_from_slice(side(patches, i, k))?;
    }
    Ok(())
}

/// The side of budget `k` on which patch `i` lies.
fn side(patches: &Patches, i: u32, k: u32) -> &'static [u8]
    requires patch { i < length patches.now.patches }
    requires budget { k < patches.now.budgets }
    ensures { result.now ≡ side_of_patch patches.now i k }
{
    match patches.sign(i, k).cmp(&0) {
        Ordering::Less => b" below",
        Ordering::Equal => b" on",
        Ordering::Greater => b" above",
    }
}
