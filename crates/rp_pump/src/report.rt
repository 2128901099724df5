//! The report on the money pump.
ghost use Rattle.std.specs.Prelude.{◌≡◌, ◌≤◌, IfOk};
ghost use Rattle.rp_pump.specs.Report.{pump_report};

use rp_fit::PumpPart;
use rp_num::NoMemory;
use rp_print::{lowest_terms, push_fraction_line, push_head, push_ordinals, push_sums};
use rp_table::Table;
use std::alloc::Global;

/// The report on the greatest money pump ratio of a table.
pub fn report_pump(alloc: Global, table: &Table, part: &PumpPart) -> Result<Vec<u8>, NoMemory>
    requires { 1 ≤ part.now.den }
    ensures { IfOk result (λ text. text.items ≡ pump_report table.now part.now) }
{
    let mut text = Vec::new(alloc);
    push_head(alloc, &mut text, table)?;
    let ratio = lowest_terms(u128::from(part.num), u128::from(part.den));
    push_fraction_line(alloc, &mut text, b"pump ", ratio)?;
    push_ordinals(alloc, &mut text, b"cycle ", part.cycle.as_slice())?;
    push_sums(alloc, &mut text, b"values ", part.values.as_slice())?;
    Ok(text)
}
