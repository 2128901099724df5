//! The answer of `power`.
ghost use Rattle.std.specs.Prelude.{◌≡◌, ◌≤◌, [], IfOk};
ghost use Rattle.rp_limits.specs.declared.command_line.TheConstants.{MOST_DRAWS};
ghost use Rattle.rp_answers.specs.PowerText.{IsPowerText};

use rp_num::NoMemory;
use rp_power::{power, report_power};
use rp_table::{Costs, Table};
use std::alloc::Global;

/// The report of how many of so many random behaviours on a table's budgets fail the axiom, without evidence.
pub fn power_text(alloc: Global, table: &Table, seed: u64, draws: u64) -> Result<Vec<u8>, NoMemory>
    requires no_levels { table.now.levels ≡ [] }
    requires few { draws ≤ MOST_DRAWS }
    ensures { IfOk result (λ text. IsPowerText table.now seed draws text.items) }
{
    let draws = draws as u32;
    let costs = Costs::of(alloc, table)?;
    let violations = power(alloc, table, &costs, seed, draws)?;
    let text = report_power(alloc, table, seed, draws, violations)?;
    Ok(text)
}
