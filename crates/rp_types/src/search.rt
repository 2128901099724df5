//! All rational types by a search, depth first over the budgets, that leaves a partial type with a violation.
ghost use Rattle.std.specs.Prelude.{◌≡◌, ◌≤◌, IfErr, IfOk, OnOk, length};
ghost use Rattle.rp_patch.specs.PartialTypes.{IsPartialType, taken_in};
ghost use Rattle.rp_patch.specs.Types.{AreRationalTypes, combinations};
ghost use Rattle.rp_types.specs.InnerListed.{AreListedBefore, AreListedThrough, SaysMore};
ghost use Rattle.rp_types.specs.Listed.{SaysWhy, types_of};

use crate::TypesFault;
use crate::combinations::test_combinations;
use crate::types::Rational;
use rp_limits::table::BUDGETS;
use rp_limits::types::{COMBINATIONS, TYPES};
use rp_num::Seq;
use rp_patch::Patches;
use rp_patch::partial_type::PartialType;
use std::alloc::Global;

/// Adds a partial type with a patch of every budget.
fn push_type(
    alloc: Global,
    patches: &Patches,
    partial: &PartialType,
    types: &mut Vec<Rational>,
) -> Result<(), TypesFault>
    requires partial { IsPartialType patches.now partial.now }
    requires whole { partial.now.taken ≡ patches.now.budgets }
    requires so_far { AreListedBefore patches.now (taken_in partial.now) types.old.items }
    ensures listed { OnOk result
        (AreListedThrough patches.now (taken_in partial.now) types.new.items) }
    ensures refused { IfErr result (SaysMore patches.now) }
{
    prove!(patches.budgets() <= BUDGETS);
    if types.len() == TYPES as usize {
        return Err(TypesFault::TooManyTypes);
    }
    let taken = Vec::from_slice(alloc, partial.patches())?;
    types.push(Rational {
        patches: Seq::from_vec(taken),
    })?;
    Ok(())
}

/// Adds the rational types that begin with a partial type, where those that come before are listed.
pub fn extend(
    alloc: Global,
    patches: &Patches,
    partial: &PartialType,
    types: &mut Vec<Rational>,
) -> Result<(), TypesFault>
    requires partial { IsPartialType patches.now partial.now }
    requires so_far { AreListedBefore patches.now (taken_in partial.now) types.old.items }
    ensures listed { OnOk result
        (AreListedThrough patches.now (taken_in partial.now) types.new.items) }
    ensures refused { IfErr result (SaysMore patches.now) }
{
    if partial.taken == patches.budgets() {
        return push_type(alloc, patches, partial, types);
    }
    for i in 0..patches.count() {
        if let Some(next) = partial.with(patches, i) {
            extend(alloc, patches, &next, types)?;
        }
    }
    Ok(())
}

/// All rational types, in lexicographic order of their patches.
pub fn rational_types(alloc: Global, patches: &Patches) -> Result<Seq<Rational>, TypesFault>
    ensures all { IfOk result (λ types. AreRationalTypes patches.now (types_of types)) }
    ensures few { IfOk result (λ types. length types ≤ TYPES) }
    ensures within { IfOk result
        (λ _. combinations patches.now patches.now.budgets ≤ COMBINATIONS) }
    ensures refused { IfErr result (SaysWhy patches.now) }
{
    test_combinations(patches)?;
    let mut types = Vec::new(alloc);
    let partial = PartialType::new(patches);
    extend(alloc, patches, &partial, &mut types)?;
    Ok(Seq::from_vec(types))
}
