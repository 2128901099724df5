//! The units of the cells on menus, or why there are none.
ghost use Rattle.std.specs.Prelude.{IfErr, IfOk, Ok};
ghost use Rattle.rp_command_line.specs.Ranges.{IsUnit};
ghost use Rattle.rp_commands.specs.InnerCauses.{IsReadingCause, IsRefusal};
ghost use Rattle.rp_commands.specs.MenuContents.{UnitsOf, need_unit_line};

use crate::fault_text::ordinal_line;
use crate::files::Cause;
use rp_menu::Menus;
use rp_patch::ApportionFault;
use rp_patch::apportionment::{Units, apportion};
use std::alloc::Global;

/// The units of the cells, with so many on each menu where that is asked for.
pub(crate) fn units_of<'a>(
    alloc: Global,
    seen: &Menus,
    per: Option<u32>,
) -> Result<Units, Cause<'a>>
    requires { IsUnit per }
    ensures made { IfOk result (λ units. UnitsOf seen.now per (Ok units)) }
    ensures caused { IfErr result (IsReadingCause (UnitsOf seen.now per)) }
{
    match apportion(alloc, seen.groups(), seen.counts(), per) {
        Ok(units) => Ok(units),
        Err(ApportionFault::NeedUnit { group }) => Err(unit_needed(alloc, group)),
        Err(ApportionFault::NoMemory) => Err(Cause::NoMemory),
    }
}

/// The cause that the want of a number of units is. Menus are told from 1.
fn unit_needed<'a>(alloc: Global, menu: u32) -> Cause<'a>
    ensures { IsRefusal (need_unit_line menu) result }
{
    match ordinal_line(alloc, b"rp: NeedUnit menu ", menu) {
        Ok(line) => Cause::Refused(line),
        Err(_) => Cause::NoMemory,
    }
}
