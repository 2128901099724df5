//! Prices of the patches, as a search over rational types asks for them.
ghost use Rattle.std.specs.Prelude.{◌≡◌, ◌<◌, ◌≤◌, ◌*◌, ◌^◌, IfOk, IfSome, length, slice_index};
ghost use Rattle.rp_generated.specs.InnerLight.{AreListed, AreOrdered, IsLeastFrom, IsLeastOf, IsPlaceOf};
ghost use Rattle.rp_limits.specs.declared.table.TheConstants.{BUDGETS};
ghost use Rattle.rp_patch.specs.Patches.{PatchList};

use crate::compatible::PatchSet;
use rp_limits::table::BUDGETS;
use rp_num::NoMemory;
use rp_patch::Patches;
use std::alloc::Global;

/// Prices of the patches; and the patches of each budget, the lightest first.
#[derive(Drop)]
pub(crate) struct Prices {
    prices: Vec<u64>,
    on_budget: Vec<Vec<u32>>,
    budgets: u32,
}

/// The price of a patch.
fn price_at(prices: &[u64], i: u32) -> u64
    ensures { result ≡ slice_index prices.now i }
{
    match prices.get(i as usize) {
        Some(price) => *price,
        None => 0,
    }
}

/// The place at which a patch is put, so that the list stays in order of the prices.
fn place_of(prices: &[u64], list: &[u32], i: u32) -> usize
    ensures { IsPlaceOf prices.now list.now i result }
{
    for k in 0..list.len() {
        if price_at(prices, list[k]) > price_at(prices, i) {
            return k;
        }
    }
    list.len()
}

/// The patches of budget `j`, the lightest first.
fn patches_on(
    alloc: Global,
    patches: &Patches,
    prices: &[u64],
    j: u32,
) -> Result<Vec<u32>, NoMemory>
    ensures { IfOk result (λ list.
        AreOrdered patches.now prices.now j (length patches.now.patches) list.items) }
{
    let mut list = Vec::new(alloc);
    for i in 0..patches.count() {
        if patches.budget_of(i) == j {
            let at = place_of(prices, list.as_slice(), i);
            list.insert(at, i)?;
        }
    }
    Ok(list)
}

impl Prices {
    /// These prices of the patches.
    pub(crate) fn make(
        alloc: Global,
        patches: &Patches,
        prices: Vec<u64>,
    ) -> Result<Prices, NoMemory>
        ensures listed { IfOk result (AreListed patches.now) }
        ensures prices { IfOk result (λ made. made.prices ≡ prices) }
    {
        let mut on_budget = Vec::new(alloc);
        for j in 0..patches.budgets() {
            on_budget.push(patches_on(alloc, patches, prices.as_slice(), j)?)?;
        }
        Ok(Prices {
            prices,
            on_budget,
            budgets: patches.budgets(),
        })
    }

    /// The price of a patch.
    pub(crate) fn of(&self, i: u32) -> u128
        ensures exact { result ≡ slice_index self.now.prices.items i }
        ensures small { result < 2 ^ 64 }
    {
        u128::from(price_at(self.prices.as_slice(), i))
    }

    /// The patches of a budget, the lightest first.
    pub(crate) fn on(&self, budget: u32) -> &[u32]
        ensures { (p : PatchList) → AreListed p self.now → budget < p.budgets
            → AreOrdered p self.now.prices.items budget (length p.patches) result.now }
    {
        match self.on_budget.get(budget as usize) {
            Some(list) => list.as_slice(),
            None => &[],
        }
    }

    /// What the lightest patch of a budget in a set weighs; none where none is in it.
    fn least_on(&self, budget: u32, set: &PatchSet) -> Option<u128>
        ensures least { (p : PatchList) → AreListed p self.now → budget < p.budgets
            → IsLeastOf p self.now.prices.items budget set.now.words result }
        ensures small { IfSome result (λ least. least < 2 ^ 64) }
    {
        let list = self.on(budget);
        for k in 0..list.len() {
            if set.has(list[k]) {
                return Some(self.of(list[k]));
            }
        }
        None
    }

    /// What the lightest patches in a set weigh together of all budgets from one on; none where none is in it of one of
    /// these budgets.
    pub(crate) fn least_from(&self, first: u32, set: &PatchSet) -> Option<u128>
        requires few { self.now.budgets ≤ BUDGETS }
        requires first { first ≤ self.now.budgets }
        ensures least { (p : PatchList) → AreListed p self.now → first ≤ p.budgets
            → IsLeastFrom p self.now.prices.items first set.now.words result }
        ensures small { IfSome result (λ least. least ≤ BUDGETS * 2 ^ 64) }
    {
        let mut least: u128 = 0;
        for j in first..self.budgets {
            let Some(more) = self.least_on(j, set) else {
                return None;
            };
            least += more;
        }
        Some(least)
    }
}
