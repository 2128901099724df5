//! The report on the power of the test.
ghost use Rattle.std.specs.Prelude.{◌≡◌, ◌++◌, IfOk, OnOk};
ghost use Rattle.rp_power.specs.PowerText.{power_line, power_report};

use rp_num::NoMemory;
use rp_print::{LongNumber, Number, push_after, push_head};
use rp_table::Table;
use std::alloc::Global;

/// The report on the power of the test on a table's budgets.
pub fn report_power(
    alloc: Global,
    table: &Table,
    seed: u64,
    draws: u32,
    violations: u32,
) -> Result<Vec<u8>, NoMemory>
    ensures { IfOk result (λ text. text.items ≡ power_report table.now seed draws violations) }
{
    let mut text = Vec::new(alloc);
    push_head(alloc, &mut text, table)?;
    push_power(alloc, &mut text, seed, draws, violations)?;
    Ok(text)
}

/// Appends the line of the seed, of how many behaviours were drawn, and of how many fail the axiom.
fn push_power(
    alloc: Global,
    out: &mut Vec<u8>,
    seed: u64,
    draws: u32,
    violations: u32,
) -> Result<(), NoMemory>
    ensures { OnOk result (out.new.items ≡ out.old.items ++ power_line seed draws violations) }
{
    push_after::<LongNumber>(alloc, out, b"power ", seed)?;
    push_after::<Number>(alloc, out, b" draws ", draws)?;
    push_after::<Number>(alloc, out, b" violations ", violations)?;
    out.push(b'\n')?;
    Ok(())
}
