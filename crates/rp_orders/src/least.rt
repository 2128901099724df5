//! The least of the sums over menus (after Block and Marschak 1960).
ghost use Rattle.std.specs.Prelude.{◌≡◌, ◌<◌, ◌^◌, ◌+◌};
ghost use Rattle.rp_orders.specs.InnerLeast.{IsLeastBefore};
ghost use Rattle.rp_orders.specs.LeastSums.{IsLeastMenuSum};
ghost use Rattle.rp_orders.specs.MenuSums.{AreComplete, sum_at};
ghost use Rattle.rp_orders.specs.OrderMixtures.{AreUnitsOf};

use crate::sums::menu_sum;
use rp_limits::menu::LETTERS;
use rp_menu::{Menus, has_letter};
use rp_patch::apportionment::Units;

/// The sum of a letter at a menu that holds it.
#[derive(Clone, Copy)]
pub(crate) struct LeastSum {
    pub(crate) sum: i128,
    pub(crate) letter: u32,
    pub(crate) menu: u32,
}

/// The least sum of all, of several the first by the number of the menu and then by letter.
pub(crate) fn least_sum(seen: &Menus, units: &Units) -> LeastSum
    requires units { AreUnitsOf seen.now units.now }
    requires complete { AreComplete seen.now }
    ensures exact { result.sum ≡ sum_at seen.now units.now result.letter result.menu }
    ensures least { IsLeastMenuSum seen.now units.now result.menu result.letter }
{
    prove!(seen.letters() >= 1);
    let mut least = LeastSum {
        sum: menu_sum(seen, units, 0, 1),
        letter: 0,
        menu: 1,
    };
    for menu in 1..2u32.pow(seen.letters()) {
        least = least_with(seen, units, menu, least);
    }
    least
}

/// The least of one that was found on the menus before a menu and the sums at that menu.
fn least_with(seen: &Menus, units: &Units, menu: u32, earlier: LeastSum) -> LeastSum
    requires units { AreUnitsOf seen.now units.now }
    requires complete { AreComplete seen.now }
    requires within { menu < 2 ^ seen.now.letters }
    requires before { IsLeastBefore seen.now units.now menu 0 earlier }
    ensures { IsLeastBefore seen.now units.now (menu + 1) 0 result }
{
    let mut least = earlier;
    for letter in 0..LETTERS {
        least = lesser(seen, units, menu, letter, least);
    }
    prove!(seen.letters() <= LETTERS);
    least
}

/// The lesser of one that was found before a letter at a menu and the sum of that, where the menu holds it.
fn lesser(seen: &Menus, units: &Units, menu: u32, letter: u32, least: LeastSum) -> LeastSum
    requires units { AreUnitsOf seen.now units.now }
    requires complete { AreComplete seen.now }
    requires within { menu < 2 ^ seen.now.letters }
    requires before { IsLeastBefore seen.now units.now menu letter least }
    ensures { IsLeastBefore seen.now units.now menu (letter + 1) result }
{
    if !has_letter(menu, letter) {
        return least;
    }
    let sum = menu_sum(seen, units, letter, menu);
    if sum < least.sum {
        LeastSum { sum, letter, menu }
    } else {
        least
    }
}
