//! The answer of `pump`.
ghost use Rattle.std.specs.Prelude.{◌≡◌, [], IfOk};
ghost use Rattle.rp_answers.specs.PumpText.{IsPumpText};

use rp_num::NoMemory;
use rp_pump::{pump, report_pump};
use rp_table::{Costs, Table};
use std::alloc::Global;

/// The report of the greatest money pump ratio of a table, with its evidence.
pub fn pump_text(alloc: Global, table: &Table) -> Result<Vec<u8>, NoMemory>
    requires { table.now.levels ≡ [] }
    ensures { IfOk result (λ text. IsPumpText table.now text.items) }
{
    let costs = Costs::of(alloc, table)?;
    let part = pump(alloc, &costs)?;
    let text = report_pump(alloc, table, &part)?;
    Ok(text)
}
