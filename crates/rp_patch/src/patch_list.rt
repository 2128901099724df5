//! The patches of choices from budgets, as a list.
ghost use Rattle.std.specs.Prelude.{◌≡◌, ◌<◌, ◌≤◌, length};
ghost use Rattle.rp_patch.specs.Patches.{IsPatchList, budget_at, sign_at, units_at};

use rp_limits::generated::PATCHES;
use rp_limits::table::BUDGETS;
use rp_num::Seq;
use std::marker::Model;

/// A budget, with the signs that say on which side of each budget the bundles of the patch lie, and how many of the
/// budget's units chose it.
#[derive(Debug, Drop)]
pub struct Patch {
    pub budget: u32,
    pub signs: Seq<i8>,
    pub units: u64,
}

/// The patches that were chosen, by budget and then by their first choice, and their units.
#[derive(Debug, Drop)]
pub struct Patches {
    budgets: u32,
    patches: Vec<Patch>,
    total: u64,
    asked: Option<u32>,
}

impl Model for Patches {
    ghost use Rattle.rp_patch.specs.Patches.{IsPatchList, PatchList};

    ghost Value = { PatchList };

    ghost view = { λ p. record
        { budgets = p.budgets; patches = p.patches.items; total = p.total; asked = p.asked } };

    ghost invariant = { λ p. IsPatchList
        (record {
          budgets = p.budgets;
          patches = p.patches.items;
          total = p.total;
          asked = p.asked;
        }) };
}

impl Patches {
    /// The patches of so many budgets, each with its units, under a total that may have been asked for.
    pub(crate) fn make(budgets: u32, patches: Vec<Patch>, total: u64, asked: Option<u32>) -> Patches
        requires { IsPatchList (record
            { budgets = budgets; patches = patches.items; total = total; asked = asked }) }
        ensures { result ≡ record
            { budgets = budgets; patches = patches.items; total = total; asked = asked } }
    {
        Patches {
            budgets,
            patches,
            total,
            asked,
        }
    }

    /// How many budgets there are.
    pub fn budgets(&self) -> u32
        ensures count { result ≡ self.now.budgets }
        ensures few { result ≤ BUDGETS }
        ensures valid { IsPatchList self.now }
    {
        self.budgets
    }

    /// How many patches there are, on all budgets together.
    pub fn count(&self) -> u32
        ensures count { result ≡ length self.now.patches }
        ensures few { result ≤ PATCHES }
    {
        self.patches.len() as u32
    }

    /// The budget of patch `i`.
    pub fn budget_of(&self, i: u32) -> u32
        requires { i < length self.now.patches }
        ensures exact { result ≡ budget_at self.now i }
        ensures within { result < self.now.budgets }
    {
        self.patches[i as usize].budget
    }

    /// 1 where patch `i` lies above budget `k`, -1 where it lies below, and 0 where it costs exactly the income of `k`.
    pub fn sign(&self, i: u32, k: u32) -> i8
        requires patch { i < length self.now.patches }
        requires budget { k < self.now.budgets }
        ensures { result ≡ sign_at self.now i k }
    {
        self.patches[i as usize].signs.as_slice()[k as usize]
    }

    /// The units of patch `i`.
    pub fn units(&self, i: u32) -> u64
        requires { i < length self.now.patches }
        ensures exact { result ≡ units_at self.now i }
        ensures within { result ≤ self.now.total }
    {
        self.patches[i as usize].units
    }

    /// The units of each budget.
    pub fn total(&self) -> u64
        ensures { result ≡ self.now.total }
    {
        self.total
    }

    /// The unit that was asked for.
    pub fn asked(&self) -> Option<u32>
        ensures { result ≡ self.now.asked }
    {
        self.asked
    }
}
