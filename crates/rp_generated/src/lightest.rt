//! The search for light rational types, depth first over the budgets, the lightest patch of each first. A partial type
//! is left where it has a violation, and where it cannot get lighter than the lightest type so far by patches that make
//! no violation with one of its own.
ghost use Rattle.std.specs.Prelude.{◌≡◌, ◌<◌, ◌≤◌, ◌+◌, ◌++◌, ◌∷◌, [], ℕ, IfNone, IfOk, IfSome, List};
ghost use Rattle.std.specs.Prelude.{length};
ghost use Rattle.rp_generated.specs.InnerLight.{AreCompatible, AreListed, HasEndedBelow, HasSought};
ghost use Rattle.rp_generated.specs.InnerLight.{IsSettled, IsWeighed, NoneIsLighter};
ghost use Rattle.rp_generated.specs.InnerLooks.{Looked, LookedFrom};
ghost use Rattle.rp_patch.specs.PartialTypes.{IsPartialType, taken_in};
ghost use Rattle.rp_patch.specs.Patches.{budget_at};

use crate::compatible::{Compatible, PatchSet};
use crate::looked::Lightest;
use crate::prices::Prices;
use rp_limits::generated::PATCHES;
use rp_limits::table::BUDGETS;
use rp_num::NoMemory;
use rp_patch::Patches;
use rp_patch::partial_type::PartialType;
use std::alloc::Global;

impl Lightest {
    /// Looks at a patch of the next budget for a partial type, which is a step.
    fn look(
        &mut self,
        patches: &Patches,
        prices: &Prices,
        compatible: &Compatible,
        begun: &Begun,
        i: u32,
    ) -> Option<Begun>
        requires part { IsPartialType patches.now begun.now.partial }
        requires weighed { IsWeighed patches.now prices.now.prices.items begun.now }
        requires listed { AreListed patches.now prices.now }
        requires compatible { AreCompatible patches.now compatible.now }
        requires patch { i < length patches.now.patches }
        requires next { budget_at patches.now i ≡ begun.now.partial.taken }
        requires left { self.old.steps < self.old.most }
        ensures counted { self.new.steps ≡ self.old.steps + 1 }
        ensures most { self.new.most ≡ self.old.most }
        ensures types { self.new.types ≡ self.old.types }
        ensures weight { self.new.weight ≡ self.old.weight }
        ensures weighed { IfSome result (IsWeighed patches.now prices.now.prices.items) }
        ensures lighter { IfSome result (λ longer. longer.weight < self.old.weight) }
        ensures none { IfNone result (NoneIsLighter patches.now prices.now.prices.items
            (taken_in begun.now.partial ++ i ∷ []) self.old.weight) }
        ensures part { IfSome result (λ longer. IsPartialType patches.now longer.partial) }
        ensures taken { IfSome result (λ longer.
            longer.partial.taken ≡ begun.now.partial.taken + 1) }
        ensures longer { IfSome result (λ longer.
            taken_in longer.partial ≡ taken_in begun.now.partial ++ i ∷ []) }
    {
        self.steps += 1;
        begun.with(patches, prices, compatible, i, self.weight)
    }
}

/// A partial type, what it weighs, and the patches which make no violation with one of its own.
#[derive(Drop)]
struct Begun {
    partial: PartialType,
    weight: u128,
    fit: PatchSet,
}

impl Begun {
    /// No patch taken yet.
    fn new(patches: &Patches) -> Begun
        ensures part { IsPartialType patches.now result.partial }
        ensures none { taken_in result.partial ≡ [] }
        ensures weight { result.weight ≡ 0 }
        ensures weighed { (weights : List ℕ) → IsWeighed patches.now weights result }
    {
        prove!(patches.count() <= PATCHES);
        Begun {
            partial: PartialType::new(patches),
            weight: 0,
            fit: PatchSet::all(),
        }
    }

    /// This partial type with a patch of the next budget; none where no rational type that begins
    /// so weighs less than this.
    fn with(
        &self,
        patches: &Patches,
        prices: &Prices,
        compatible: &Compatible,
        i: u32,
        below: u128,
    ) -> Option<Begun>
        requires part { IsPartialType patches.now self.now.partial }
        requires weighed { IsWeighed patches.now prices.now.prices.items self.now }
        requires listed { AreListed patches.now prices.now }
        requires compatible { AreCompatible patches.now compatible.now }
        requires patch { i < length patches.now.patches }
        requires next { budget_at patches.now i ≡ self.now.partial.taken }
        ensures weighed { IfSome result (IsWeighed patches.now prices.now.prices.items) }
        ensures lighter { IfSome result (λ begun. begun.weight < below) }
        ensures none { IfNone result (NoneIsLighter patches.now prices.now.prices.items
            (taken_in self.now.partial ++ i ∷ []) below) }
        ensures part { IfSome result (λ begun. IsPartialType patches.now begun.partial) }
        ensures taken { IfSome result (λ begun.
            begun.partial.taken ≡ self.now.partial.taken + 1) }
        ensures longer { IfSome result (λ begun.
            taken_in begun.partial ≡ taken_in self.now.partial ++ i ∷ []) }
    {
        prove!(patches.budgets() <= BUDGETS);
        if !self.fit.has(i) {
            return None;
        }
        let weight = self.weight + prices.of(i);
        let fit = compatible.among(&self.fit, i);
        let Some(to_come) = prices.least_from(self.partial.taken + 1, &fit) else {
            return None;
        };
        if weight + to_come >= below {
            return None;
        }
        match self.partial.with(patches, i) {
            Some(partial) => Some(Begun {
                partial,
                weight,
                fit,
            }),
            None => None,
        }
    }
}

/// Looks through the types that begin with a partial type. Each step that it counts is a look for one of them, and none
/// is made twice. Where steps are left, no rational type that begins so is lighter in the end.
fn seek(
    alloc: Global,
    patches: &Patches,
    prices: &Prices,
    compatible: &Compatible,
    begun: &Begun,
    lightest: &mut Lightest,
) -> Result<(), NoMemory>
    requires part { IsPartialType patches.now begun.now.partial }
    requires weighed { IsWeighed patches.now prices.now.prices.items begun.now }
    requires listed { AreListed patches.now prices.now }
    requires compatible { AreCompatible patches.now compatible.now }
    requires lighter { begun.now.weight < lightest.old.weight }
    ensures looked { IfOk result (λ _.
        Looked patches.now (taken_in begun.now.partial) lightest.old lightest.new) }
    ensures sought { IfOk result (λ _.
        HasSought patches.now prices.now.prices.items lightest.old lightest.new) }
    ensures most { IfOk result (λ _. lightest.new.most ≡ lightest.old.most) }
    ensures settled { IfOk result (λ _. IsSettled patches.now prices.now.prices.items
        (taken_in begun.now.partial) lightest.new) }
{
    prove!(patches.budgets() <= BUDGETS);
    let taken = begun.partial.taken;
    if taken == patches.budgets() {
        return lightest.take(alloc, begun.partial.patches(), begun.weight);
    }
    let Some(to_come) = prices.least_from(taken + 1, &begun.fit) else {
        return Ok(());
    };
    let list = prices.on(taken);
    for k in 0..list.len() {
        if lightest.is_given_up() {
            return Ok(());
        }
        if begun.weight + prices.of(list[k]) + to_come >= lightest.weight {
            return Ok(());
        }
        if let Some(longer) = lightest.look(patches, prices, compatible, begun, list[k]) {
            seek(alloc, patches, prices, compatible, &longer, lightest)?;
        }
    }
    Ok(())
}

/// Rational types that weigh less than this by prices, the lightest last, where there is one; `steps` were made before, of
/// at most `most`.
pub(crate) fn light_types(
    alloc: Global,
    patches: &Patches,
    prices: &Prices,
    compatible: &Compatible,
    below: u128,
    steps: u64,
    most: u64,
) -> Result<Lightest, NoMemory>
    requires few { steps ≤ most }
    requires some { 1 ≤ below }
    requires listed { AreListed patches.now prices.now }
    requires compatible { AreCompatible patches.now compatible.now }
    ensures looked { IfOk result (LookedFrom patches.now steps) }
    ensures most { IfOk result (λ light. light.most ≡ most) }
    ensures ended { IfOk result (HasEndedBelow patches.now prices.now.prices.items below) }
{
    let mut lightest = Lightest {
        weight: below,
        types: Vec::new(alloc),
        steps,
        most,
    };
    let none = Begun::new(patches);
    seek(alloc, patches, prices, compatible, &none, &mut lightest)?;
    Ok(lightest)
}
