//! The observations that one reaches.
ghost use Rattle.std.specs.Prelude.{◌≤◌, ◌<◌, All, IfOk, length};
ghost use Rattle.rp_evidence.specs.Input.{input_of_table};
ghost use Rattle.rp_evidence.specs.Welfare.{ListsReached};
ghost use Rattle.rp_table.specs.Tables.{records_of};
ghost use Rattle.rp_limits.specs.declared.table.TheConstants.{RECORDS};
ghost use Rattle.rp_pref.specs.Closure.{IsWeakClosureOf};

use rp_num::NoMemory;
use rp_pref::Closure;
use rp_table::Table;
use std::alloc::Global;

/// The observation `t` and all that it reaches, in increasing order.
pub(crate) fn reached_from(
    alloc: Global,
    table: &Table,
    closure: &Closure,
    t: u32,
) -> Result<Vec<u32>, NoMemory>
    requires closes { IsWeakClosureOf closure.now (input_of_table table.now) }
    requires observed { t < records_of table.now }
    ensures listed { IfOk result
        (λ reached. ListsReached (input_of_table table.now) t reached.items) }
    ensures observed { IfOk result (λ reached. All (λ s. s < records_of table.now) reached.items) }
    ensures few { IfOk result (λ reached. length reached.items ≤ RECORDS) }
{
    let mut reached = Vec::new(alloc);
    for s in 0..table.n() {
        if closure.equals_or_reaches(t, s) {
            reached.push(s)?;
        }
    }
    Ok(reached)
}
