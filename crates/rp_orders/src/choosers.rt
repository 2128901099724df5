//! Strict orders as kinds of persons, each of whom uses the cells that the order picks.
ghost use Rattle.std.specs.Prelude.{◌≡◌, ◌↔◌, ◌≤◌, ◌<◌, ℕ, IsTrue, List, length};
ghost use Rattle.rp_orders.specs.OrderKinds.{PicksCells, cells_picked};
ghost use Rattle.rp_orders.specs.OrderMixtures.{AreUnitsOf};
ghost use Rattle.rp_patch.specs.Kinds.{cells_weight};

use crate::lists::{is_order, list_at, lists};
use crate::picks::{picks, picks_cells, weight_picked};
use rp_check_mixture::Choosers;
use rp_menu::Menus;
use rp_patch::CellUnits;
use rp_patch::apportionment::Units;

/// The orders over menus with units of their cells.
#[derive(Drop)]
pub struct OrdersOver<'a> {
    pub(crate) seen: &'a Menus,
    pub(crate) units: &'a Units,
    ghost are: { AreUnitsOf seen.now units.now },
}

impl<'a> OrdersOver<'a> {
    /// Those over these menus; no memory is taken.
    pub fn make(seen: &'a Menus, units: &'a Units) -> OrdersOver<'a>
        requires { AreUnitsOf seen.now units.now }
        ensures seen { result.seen.now ≡ seen.now }
        ensures units { result.units.now ≡ units.now }
    {
        OrdersOver { seen, units }
    }
}

/// Whether every order that picks a cell from every menu picks cells that weigh at least `least` together.
fn all_weigh(seen: &Menus, least: u64, weights: &[u64]) -> bool
    requires { length weights.now ≡ length seen.now.groups }
    ensures { IsTrue result ↔ ((order : List ℕ) → PicksCells seen.now order
        → least ≤ cells_weight weights.now (cells_picked seen.now order)) }
{
    let letters = seen.letters();
    for n in 0..lists(letters) {
        let list = list_at(letters, n);
        if !weighs(seen, least, weights, &list[..letters as usize]) {
            return false;
        }
    }
    true
}

/// Whether a list is no order that picks a cell from every menu, or picks cells that weigh at least `least` together.
fn weighs(seen: &Menus, least: u64, weights: &[u64], list: &[u32]) -> bool
    requires { length weights.now ≡ length seen.now.groups }
    ensures { IsTrue result ↔ (PicksCells seen.now list.now
        → least ≤ cells_weight weights.now (cells_picked seen.now list.now)) }
{
    if !is_order(seen.letters(), list) || !picks_cells(seen, list) {
        return true;
    }
    weight_picked(seen, list, weights) >= u128::from(least)
}

impl CellUnits for OrdersOver<'_> {
    ghost use Rattle.rp_orders.specs.OrderKinds.{orders_over};

    ghost kinds = { λ o. orders_over o.seen.now o.units.now };

    fn cells(&self) -> u32 {
        self.seen.cells()
    }

    fn units(&self, cell: u32) -> u64 {
        prove!(self.seen.letters() <= 6);
        self.units.units.as_slice()[cell as usize]
    }

    fn total(&self) -> u64 {
        self.units.total
    }
}

impl Choosers for OrdersOver<'_> {
    fn is_formed(&self, list: &[u32]) -> bool {
        is_order(self.seen.letters(), list)
    }

    fn is_kind(&self, list: &[u32]) -> bool {
        picks_cells(self.seen, list)
    }

    fn uses(&self, list: &[u32], cell: u32) -> bool {
        picks(self.seen, list, cell)
    }

    fn all_weigh(&self, least: u64, weights: &[u64]) -> bool {
        all_weigh(self.seen, least, weights)
    }
}
