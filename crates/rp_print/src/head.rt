//! The line on a table.
ghost use Rattle.std.specs.Prelude.{◌≡◌, ◌++◌, OnOk};
ghost use Rattle.rp_print.specs.HeadText.{head_text};

use crate::entry::Number;
use crate::line::push_after;
use rp_num::NoMemory;
use rp_table::Table;
use std::alloc::Global;

/// Appends the line on a table: how many observations and goods it has, and the places of its prices and quantities.
pub fn push_head(alloc: Global, out: &mut Vec<u8>, table: &Table) -> Result<(), NoMemory>
    ensures { OnOk result (out.new.items ≡ out.old.items ++ head_text table.now) }
{
    push_after::<Number>(alloc, out, b"observations ", table.n())?;
    push_after::<Number>(alloc, out, b" goods ", table.goods())?;
    push_after::<Number>(alloc, out, b" places ", u32::from(table.price_places()))?;
    push_after::<Number>(alloc, out, b" ", u32::from(table.quantity_places()))?;
    out.push(b'\n')?;
    Ok(())
}
