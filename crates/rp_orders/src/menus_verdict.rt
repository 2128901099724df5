//! A mixture of strict orders, or weights that show there is none.
ghost use Rattle.std.specs.Prelude.{IfOk};
ghost use Rattle.rp_orders.specs.MenuEvidence.{IsMenuVerdict, PassesMenus, ProvesMenus, ShowsSums};
ghost use Rattle.rp_orders.specs.OrderMixtures.{AreUnitsOf};

use crate::listed::ListedOrders;
use crate::orders::all_orders;
use rp_evidence::RandomPart;
use rp_find_mixture::mixture;
use rp_menu::Menus;
use rp_num::NoMemory;
use rp_patch::apportionment::Units;
use std::alloc::Global;

/// Whether some mixture of strict orders makes the choices, by the run of the program of mixtures over all orders that
/// pick a cell from every menu: a mixture; a partial one of the greatest share with weights of the cells; or the step
/// at which the run passes its width. `check_menu` accepts it.
pub fn menus(alloc: Global, seen: &Menus, units: &Units) -> Result<RandomPart, NoMemory>
    requires { AreUnitsOf seen.now units.now }
    ensures proves { IfOk result (ProvesMenus seen.now units.now) }
    ensures run { IfOk result (IsMenuVerdict seen.now units.now) }
    ensures passes { IfOk result (PassesMenus seen.now units.now) }
    ensures sums { IfOk result (ShowsSums seen.now units.now) }
{
    prove!(seen.letters() <= 6);
    let orders = all_orders(alloc, seen)?;
    mixture(alloc, &ListedOrders::make(seen, units, orders.as_slice()))
}
