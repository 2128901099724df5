//! A mixture of rational types, or weights that show there is none.
ghost use Rattle.std.specs.Prelude.{◌≤◌, ◌↔◌, ℕ, IfOk, length};
ghost use Rattle.rp_patch.specs.Added.{AddsPatches};
ghost use Rattle.rp_patch.specs.Mixtures.{HasMixture, IsGreatestShare};
ghost use Rattle.rp_patch.specs.Patches.{PatchList};
ghost use Rattle.rp_patch.specs.RandomEvidence.{ProvesRandom, ShowsShare};
ghost use Rattle.rp_patch.specs.Types.{AreRationalTypes};
ghost use Rattle.rp_persons.specs.SaysRandom.{SaysOfChoices};
ghost use Rattle.rp_random.specs.RandomVerdict.{IsRandomVerdict};
ghost use Rattle.rp_types.specs.Listed.{types_of};
ghost use Rattle.rp_limits.specs.declared.patch.TheConstants.{PATCHES};
ghost use Rattle.rp_limits.specs.declared.types.TheConstants.{TYPES};

use crate::listed::ListedTypes;
use rp_evidence::RandomPart;
use rp_find_mixture::mixture;
use rp_num::{NoMemory, Seq};
use rp_patch::{Patches, patches_without_units_change_nothing};
use rp_types::Rational;
use std::alloc::Global;

/// Whether some mixture of these types makes the choices, by the run of the program of random utility: a mixture; a
/// partial one of the greatest share with weights of the patches; or the step at which the run passes its width. Patches
/// without units change nothing of it: with any of them added, a mixture exists just where it did, and the greatest
/// rational share is the same. A mixture says that finitely many persons make the choices, each with a preference over
/// bundles; weights say that no persons do.
pub fn random(
    alloc: Global,
    patches: &Patches,
    types: &Seq<Rational>,
) -> Result<RandomPart, NoMemory>
    requires all { AreRationalTypes patches.now (types_of types.now) }
    requires few_patches { length patches.now.patches ≤ PATCHES }
    requires few { length types.now ≤ TYPES }
    ensures proves { IfOk result (ProvesRandom patches.now patches.now.total) }
    ensures share { IfOk result (ShowsShare patches.now) }
    ensures run { IfOk result (IsRandomVerdict patches.now (types_of types.now)) }
    ensures mixtures_with_added { (more : PatchList) (place : ℕ → ℕ)
        → AddsPatches patches.now more place → HasMixture patches.now ↔ HasMixture more }
    ensures share_with_added { (more : PatchList) (place : ℕ → ℕ)
        → AddsPatches patches.now more place → (num den : ℕ)
        → IsGreatestShare patches.now num den ↔ IsGreatestShare more num den }
    ensures says { IfOk result (SaysOfChoices patches.now) }
{
    prove!(patches.budgets() >= 1);
    patches_without_units_change_nothing();
    mixture(alloc, &ListedTypes::make(patches, types.as_slice()))
}
