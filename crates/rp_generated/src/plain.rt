//! The search for a rational type that leaves out nothing, depth first over the budgets in the order of the patches. It
//! decides whether there is one where the search with prices has found none.
ghost use Rattle.std.specs.Prelude.{◌≡◌, ◌<◌, ◌≤◌, ◌+◌, ◌++◌, ◌∷◌, []};
ghost use Rattle.std.specs.Prelude.{IfNone, IfOk, IfSome, length};
ghost use Rattle.rp_generated.specs.InnerLooks.{IsDecided, Looked, LookedFrom, NoneBegins};
ghost use Rattle.rp_generated.specs.InnerRounds.{StayTypes};
ghost use Rattle.rp_generated.specs.Rounds.{AreTypes};
ghost use Rattle.rp_patch.specs.PartialTypes.{IsPartialType, taken_in};

use crate::looked::Lightest;
use rp_limits::table::BUDGETS;
use rp_num::NoMemory;
use rp_patch::Patches;
use rp_patch::partial_type::PartialType;
use std::alloc::Global;

impl Lightest {
    /// Looks at a patch of the next budget for a partial type whatever it weighs, which is a step.
    fn look_plainly(
        &mut self,
        patches: &Patches,
        partial: &PartialType,
        i: u32,
    ) -> Option<PartialType>
        requires part { IsPartialType patches.now partial.now }
        requires patch { i < length patches.now.patches }
        requires left { self.old.steps < self.old.most }
        ensures counted { self.new.steps ≡ self.old.steps + 1 }
        ensures most { self.new.most ≡ self.old.most }
        ensures types { self.new.types ≡ self.old.types }
        ensures part { IfSome result (IsPartialType patches.now) }
        ensures taken { IfSome result (λ longer. longer.taken ≡ partial.now.taken + 1) }
        ensures longer { IfSome result (λ longer.
            taken_in longer ≡ taken_in partial.now ++ i ∷ []) }
        ensures excluded { IfNone result
            (NoneBegins patches.now (taken_in partial.now ++ i ∷ [])) }
    {
        self.steps += 1;
        partial.with(patches, i)
    }
}

/// Looks through the types that begin with a partial type, until one is found. Each step that it counts is a look for
/// one of them, and none is made twice.
fn seek_plainly(
    alloc: Global,
    patches: &Patches,
    partial: &PartialType,
    light: &mut Lightest,
) -> Result<(), NoMemory>
    requires { IsPartialType patches.now partial.now }
    ensures looked { IfOk result (λ _.
        Looked patches.now (taken_in partial.now) light.old light.new) }
    ensures most { IfOk result (λ _. light.new.most ≡ light.old.most) }
    ensures decided { IfOk result (λ _.
        IsDecided patches.now (taken_in partial.now) light.new) }
    ensures types { IfOk result (λ _. StayTypes patches.now light.old light.new) }
{
    prove!(patches.budgets() <= BUDGETS);
    if partial.taken == patches.budgets() {
        return light.take(alloc, partial.patches(), 0);
    }
    for i in 0..patches.count() {
        if light.is_given_up() || !light.types.is_empty() {
            return Ok(());
        }
        if patches.budget_of(i) == partial.taken {
            if let Some(longer) = light.look_plainly(patches, partial, i) {
                seek_plainly(alloc, patches, &longer, light)?;
            }
        }
    }
    Ok(())
}

/// The first rational type, where there is one; `steps` were made before, of at most `most`.
pub(crate) fn first_type(
    alloc: Global,
    patches: &Patches,
    steps: u64,
    most: u64,
) -> Result<Lightest, NoMemory>
    requires { steps ≤ most }
    ensures most { IfOk result (λ light. light.most ≡ most) }
    ensures looked { IfOk result (LookedFrom patches.now steps) }
    ensures decided { IfOk result (IsDecided patches.now []) }
    ensures types { IfOk result (λ light. AreTypes patches.now light.types.items) }
{
    let mut light = Lightest {
        weight: 0,
        types: Vec::new(alloc),
        steps,
        most,
    };
    let none = PartialType::new(patches);
    seek_plainly(alloc, patches, &none, &mut light)?;
    Ok(light)
}
