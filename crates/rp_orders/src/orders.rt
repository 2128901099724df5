//! All orders that pick a cell from every menu, in lexicographic order.
ghost use Rattle.std.specs.Prelude.{◌≤◌, IfOk, OnOk, length};
ghost use Rattle.rp_orders.specs.InnerOrders.{AppendsKind, orders_of};
ghost use Rattle.rp_orders.specs.OrderKinds.{PicksCells};
ghost use Rattle.rp_patch.specs.Kinds.{AreAllOf};

use crate::lists::{is_order, list_at, lists};
use crate::picks::picks_cells;
use rp_menu::Menus;
use rp_num::{NoMemory, Seq};
use std::alloc::Global;

/// A strict order: its letters, from the best on.
#[derive(Debug, Drop)]
pub struct Order {
    pub letters: Seq<u32>,
}

/// All of them.
pub fn all_orders(alloc: Global, seen: &Menus) -> Result<Vec<Order>, NoMemory>
    ensures all { IfOk result (λ orders. AreAllOf (PicksCells seen.now) (orders_of orders.items)) }
    ensures few { IfOk result (λ orders. length orders.items ≤ 7776) }
{
    let letters = seen.letters();
    let mut orders = Vec::new(alloc);
    for n in 0..lists(letters) {
        let list = list_at(letters, n);
        push_order(alloc, seen, &mut orders, &list[..letters as usize])?;
    }
    Ok(orders)
}

/// Appends a list, where it is an order that picks a cell from every menu.
fn push_order(
    alloc: Global,
    seen: &Menus,
    orders: &mut Vec<Order>,
    list: &[u32],
) -> Result<(), NoMemory>
    ensures { OnOk result (AppendsKind seen.now list.now orders.old.items orders.new.items) }
{
    if is_order(seen.letters(), list) && picks_cells(seen, list) {
        let letters = Vec::from_slice(alloc, list)?;
        orders.push(Order {
            letters: Seq::from_vec(letters),
        })?;
    }
    Ok(())
}
