//! The check of evidence on choices from menus.
ghost use Rattle.std.specs.Prelude.{◌↔◌, IsTrue};
ghost use Rattle.rp_orders.specs.MenuEvidence.{PassesMenus, ProvesMenus};
ghost use Rattle.rp_orders.specs.OrderMixtures.{AreUnitsOf};

use crate::choosers::OrdersOver;
use rp_check_mixture::check_evidence;
use rp_evidence::RandomPart;
use rp_menu::Menus;
use rp_patch::apportionment::Units;

/// Checks evidence on choices from menus, from the menus and the units alone: whether it breaks none of the clauses.
/// All orders are walked in arrays, and no memory is taken.
pub fn check_menu(seen: &Menus, units: &Units, part: &RandomPart) -> bool
    requires { AreUnitsOf seen.now units.now }
    ensures exact { IsTrue result ↔ PassesMenus seen.now units.now part.now }
    ensures proves { IsTrue result → ProvesMenus seen.now units.now part.now }
{
    prove!(seen.letters() <= 6);
    check_evidence(&OrdersOver::make(seen, units), part).is_ok()
}
