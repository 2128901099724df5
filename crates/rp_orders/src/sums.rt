//! The sums of units over the menus that hold a menu (after Block and Marschak 1960).
ghost use Rattle.std.specs.Prelude.{◌≡◌, ◌<◌, ◌≤◌, ◌^◌, ◌==◌, ◌≤ℤ◌, ◌↔◌, IsTrue, pos, true, length};
ghost use Rattle.std.specs.Int.RustNames.{unsigned_abs};
ghost use Rattle.rp_menu.specs.MenuLists.{has_letter as has};
ghost use Rattle.rp_limits.specs.declared.menu.TheConstants.{LETTERS};
ghost use Rattle.rp_orders.specs.InnerSums.{added_at};
ghost use Rattle.rp_orders.specs.MenuSums.{AreComplete, size_of as letters_in, sum_at};
ghost use Rattle.rp_orders.specs.MenuSums.{units_on as units_on_menu};
ghost use Rattle.rp_orders.specs.OrderKinds.{first_with};
ghost use Rattle.rp_orders.specs.OrderMixtures.{AreUnitsOf, HasOrderMixture, menu_at};
ghost use Rattle.rp_orders.specs.OrderMixtures.{units_of as units_of_letter};
ghost use Rattle.rp_limits.specs.declared.patch.TheConstants.{UNITS};

use crate::picks::cell_of;
use rp_limits::menu::LETTERS;
use rp_menu::{Menus, has_letter};
use rp_patch::apportionment::Units;

/// How many letters a menu has.
fn size_of(letters: u32, menu: u32) -> u32
    requires { menu < 2 ^ LETTERS }
    ensures exact { result ≡ letters_in letters menu }
    ensures few { result ≤ letters }
{
    let mut size = 0;
    for x in 0..letters {
        if has_letter(menu, x) {
            size += 1;
        }
    }
    size
}

/// The place of a menu, or as many as there are where nothing was chosen from it.
fn place_of(seen: &Menus, menu: u32) -> u32
    ensures exact { result ≡ first_with (length seen.now.menus) (λ i. menu_at seen.now i == menu) }
    ensures within { result ≤ length seen.now.menus }
{
    for i in 0..seen.count() {
        if seen.menu(i) == menu {
            return i;
        }
    }
    seen.count()
}

/// The units of a letter on menu `i`, and none where it is no cell.
fn units_of(seen: &Menus, units: &Units, i: u32, x: u32) -> u64
    requires { AreUnitsOf seen.now units.now }
    ensures exact { result ≡ units_of_letter seen.now units.now i x }
    ensures few { result ≤ UNITS }
{
    prove!(seen.letters() <= LETTERS);
    let cell = cell_of(seen, i, x);
    if cell == seen.cells() {
        return 0;
    }
    units.units.as_slice()[cell as usize]
}

/// The units of a letter on a menu: where that has one letter alone the total.
fn units_on(seen: &Menus, units: &Units, menu: u32, x: u32) -> u64
    requires are { AreUnitsOf seen.now units.now }
    requires within { menu < 2 ^ LETTERS }
    ensures exact { result ≡ units_on_menu seen.now units.now menu x }
    ensures few { result ≤ UNITS }
{
    if size_of(seen.letters(), menu) == 1 {
        return units.total;
    }
    units_of(seen, units, place_of(seen, menu), x)
}

/// Whether something was chosen from every menu of two or more of the letters.
pub fn is_complete(seen: &Menus) -> bool
    ensures { IsTrue result ↔ AreComplete seen.now }
{
    let letters = seen.letters();
    for menu in 0..2u32.pow(letters) {
        if size_of(letters, menu) >= 2 && place_of(seen, menu) == seen.count() {
            return false;
        }
    }
    true
}

/// What the menu `more` adds to the sum of letter `x` at a menu.
fn added(seen: &Menus, units: &Units, x: u32, menu: u32, more: u32) -> i128
    requires are { AreUnitsOf seen.now units.now }
    requires within { menu < 2 ^ LETTERS }
    requires more { more < 2 ^ LETTERS }
    ensures exact { result ≡ added_at seen.now units.now x menu more }
    ensures few { unsigned_abs result ≤ UNITS }
{
    if more & menu != menu {
        return 0;
    }
    let letters = seen.letters();
    let units = i128::from(units_on(seen, units, more, x));
    if size_of(letters, more).saturating_sub(size_of(letters, menu)) % 2 == 0 {
        units
    } else {
        -units
    }
}

/// The sum of letter `x` at a menu: over the menus that hold it, the units of `x`, counted negative where such a menu
/// has an odd number of letters more. Where a mixture of strict orders makes the choices it is at least 0. A menu is
/// the sum of 1, 2, 4 and so on for its letters a, b, c and so on.
pub fn menu_sum(seen: &Menus, units: &Units, x: u32, menu: u32) -> i128
    requires units { AreUnitsOf seen.now units.now }
    requires complete { AreComplete seen.now }
    requires within { menu < 2 ^ seen.now.letters }
    requires letter { has menu x ≡ true }
    ensures exact { result ≡ sum_at seen.now units.now x menu }
    ensures mixtures { HasOrderMixture seen.now units.now → pos 0 ≤ℤ result }
{
    prove!(seen.letters() <= LETTERS);
    let mut sum = 0;
    for more in 0..2u32.pow(seen.letters()) {
        sum += added(seen, units, x, menu, more);
    }
    sum
}
