//! All orders that pick a cell from every menu, as a list of kinds of persons.
ghost use Rattle.std.specs.Prelude.{◌≡◌, ◌≤◌, length};
ghost use Rattle.rp_farkas.specs.Limits.{IsWithinLimits, most_columns};
ghost use Rattle.rp_orders.specs.InnerOrders.{orders_of};
ghost use Rattle.rp_orders.specs.OrderKinds.{orders_over};
ghost use Rattle.rp_orders.specs.OrderMixtures.{AreUnitsOf};
ghost use Rattle.rp_patch.specs.Kinds.{mixture_program};

use crate::choosers::OrdersOver;
use crate::orders::Order;
use rp_check_mixture::Choosers;
use rp_find_mixture::Listed;
use rp_menu::Menus;
use rp_patch::CellUnits;
use rp_patch::apportionment::Units;

/// Orders over menus with units of their cells.
#[derive(Drop)]
pub struct ListedOrders<'a> {
    over: OrdersOver<'a>,
    orders: &'a [Order],
    ghost within: { IsWithinLimits
        (mixture_program (orders_over over.seen.now over.units.now) (orders_of orders.now)) },
}

impl<'a> ListedOrders<'a> {
    /// These orders; no memory is taken.
    pub fn make(seen: &'a Menus, units: &'a Units, orders: &'a [Order]) -> ListedOrders<'a>
        requires units { AreUnitsOf seen.now units.now }
        requires few { length orders.now ≤ most_columns }
        ensures seen { result.over.seen.now ≡ seen.now }
        ensures units { result.over.units.now ≡ units.now }
        ensures orders { result.orders.now ≡ orders.now }
    {
        prove!(seen.letters() <= 6);
        ListedOrders {
            over: OrdersOver::make(seen, units),
            orders,
        }
    }
}

impl CellUnits for ListedOrders<'_> {
    ghost use Rattle.rp_orders.specs.OrderKinds.{orders_over};

    ghost kinds = { λ o. orders_over o.over.seen.now o.over.units.now };

    fn cells(&self) -> u32 {
        self.over.cells()
    }

    fn units(&self, cell: u32) -> u64 {
        self.over.units(cell)
    }

    fn total(&self) -> u64 {
        self.over.total()
    }
}

impl Listed for ListedOrders<'_> {
    ghost use Rattle.rp_orders.specs.InnerOrders.{orders_of};

    ghost listed = { λ o. orders_of o.orders.now };

    ghost within_limits = { λ o. o.within };

    fn count(&self) -> u32 {
        self.orders.len() as u32
    }

    fn kind(&self, place: u32) -> &[u32] {
        self.orders[place as usize].letters.as_slice()
    }

    fn uses(&self, place: u32, cell: u32) -> bool {
        self.over
            .uses(self.orders[place as usize].letters.as_slice(), cell)
    }
}
