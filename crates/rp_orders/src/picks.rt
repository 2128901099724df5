//! What an order picks from menus, and the cells that it picks.
ghost use Rattle.std.specs.Prelude.{◌≡◌, ◌<◌, ◌≤◌, ◌^◌, ◌↔◌, IsTrue, length};
ghost use Rattle.rp_limits.specs.declared.menu.TheConstants.{LETTERS};
ghost use Rattle.rp_orders.specs.OrderKinds.{PicksCells, cell_of as cell_of_letter, cells_picked};
ghost use Rattle.rp_orders.specs.OrderMixtures.{menu_at};
ghost use Rattle.rp_orders.specs.Orders.{IsStrictOrder, picked};
ghost use Rattle.rp_patch.specs.Kinds.{cells_weight, uses};

use rp_limits::menu::LETTERS;
use rp_menu::{Menus, has_letter};

/// The letter that an order picks from the menu with that number.
pub fn pick(menu: u32, order: &[u32]) -> u32
    requires { menu < 2 ^ LETTERS }
    ensures { result ≡ picked menu order.now }
{
    for letter in order {
        if has_letter(menu, *letter) {
            return *letter;
        }
    }
    LETTERS
}

/// The cell of a letter on menu `i`, or as many as there are where it is no cell.
pub fn cell_of(seen: &Menus, i: u32, letter: u32) -> u32
    ensures exact { result ≡ cell_of_letter seen.now i letter }
    ensures within { result ≤ length seen.now.groups }
{
    for cell in 0..seen.cells() {
        if seen.groups()[cell as usize] == i && seen.letter(cell) == letter {
            return cell;
        }
    }
    seen.cells()
}

/// The cell that an order picks from menu `i`, or as many as there are where it picks none.
pub fn cell_picked(seen: &Menus, order: &[u32], i: u32) -> u32
    requires { i < length seen.now.menus }
    ensures exact { result ≡ cell_of_letter seen.now i (picked (menu_at seen.now i) order.now) }
    ensures within { result ≤ length seen.now.groups }
{
    prove!(seen.letters() <= LETTERS);
    cell_of(seen, i, pick(seen.menu(i), order))
}

/// Whether a strict order picks a cell from every menu.
pub fn picks_cells(seen: &Menus, order: &[u32]) -> bool
    requires { IsStrictOrder seen.now.letters order.now }
    ensures { IsTrue result ↔ PicksCells seen.now order.now }
{
    for i in 0..seen.count() {
        if cell_picked(seen, order, i) == seen.cells() {
            return false;
        }
    }
    true
}

/// Whether an order picks a cell.
pub fn picks(seen: &Menus, order: &[u32], cell: u32) -> bool
    requires { cell < length seen.now.groups }
    ensures { result ≡ uses (cells_picked seen.now order.now) cell }
{
    prove!(seen.letters() <= LETTERS);
    let menu = seen.menu(seen.groups()[cell as usize]);
    pick(menu, order) == seen.letter(cell)
}

/// What the cells that an order picks weigh together.
pub fn weight_picked(seen: &Menus, order: &[u32], weights: &[u64]) -> u128
    requires cells { PicksCells seen.now order.now }
    requires one_each { length weights.now ≡ length seen.now.groups }
    ensures { result ≡ cells_weight weights.now (cells_picked seen.now order.now) }
{
    let mut weight = 0;
    for i in 0..seen.count() {
        weight += u128::from(weights[cell_picked(seen, order, i) as usize]);
    }
    weight
}
