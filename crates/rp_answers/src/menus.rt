//! The answer of `menus`.
ghost use Rattle.std.specs.Prelude.{IfOk};
ghost use Rattle.rp_orders.specs.OrderMixtures.{AreUnitsOf};
ghost use Rattle.rp_answers.specs.MenusText.{IsMenusText};

use rp_menu::Menus;
use rp_num::NoMemory;
use rp_orders::{menus, report_menus};
use rp_patch::apportionment::Units;
use std::alloc::Global;

/// The report on choices from menus, with its evidence; so many units were asked for on each menu, or none.
pub fn menus_text(
    alloc: Global,
    seen: &Menus,
    units: &Units,
    per: Option<u32>,
) -> Result<Vec<u8>, NoMemory>
    requires { AreUnitsOf seen.now units.now }
    ensures { IfOk result (λ text. IsMenusText per seen.now units.now text.items) }
{
    let part = menus(alloc, seen, units)?;
    let text = report_menus(alloc, seen, units, &part, per)?;
    Ok(text)
}
