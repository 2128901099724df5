//! Items that need no limit: numbers of violations, the efficiency index and the money pump.
ghost use Rattle.std.specs.Prelude.{◌≡◌, ◌≢◌, ◌↔◌, [], IfOk, IfSome, None};
ghost use Rattle.rp_evidence.specs.Input.{input_of_table};
ghost use Rattle.rp_fit.specs.declared.item.FitItem.TheVariants as item;
ghost use Rattle.rp_fit_find.specs.InnerReady.{IsReady};

use crate::read_back::count_fits;
use rp_check_fit::count_violations;
use rp_clauses::input::Input;
use rp_effic::efficiency;
use rp_evidence::Efficiency;
use rp_fit::{PumpPart, ViolationsPart};
use rp_limits::table::RECORDS;
use rp_num::NoMemory;
use rp_pump::pump;
use std::alloc::Global;

/// The numbers of violations.
pub(crate) fn find_violations(input: &Input<'_>) -> ViolationsPart
    ensures { IsReady (input_of_table input.now.table.now) (item.Violations result) }
{
    let part = count_violations(input);
    count_fits(part.garp);
    count_fits(part.weak_garp);
    count_fits(part.warp);
    count_fits(part.sarp);
    count_fits(part.observations);
    part
}

/// The efficiency index.
pub(crate) fn find_efficiency(alloc: Global, input: &Input<'_>) -> Result<Efficiency, NoMemory>
    ensures { IfOk result (λ evidence.
        IsReady (input_of_table input.now.table.now) (item.Efficiency evidence)) }
{
    let n = input.n();
    prove!(n <= RECORDS);
    let evidence = efficiency(alloc, input.costs)?;
    Ok(evidence)
}

/// The money pump, unless observations have levels of their own.
pub(crate) fn find_pump(alloc: Global, input: &Input<'_>) -> Result<Option<PumpPart>, NoMemory>
    ensures ready { IfOk result (λ found. IfSome found (λ part.
        IsReady (input_of_table input.now.table.now) (item.Pump part))) }
    ensures left_out { IfOk result (λ found.
        (found ≡ None) ↔ (input.now.table.now.levels ≢ [])) }
{
    if input.table.levelled() {
        return Ok(None);
    }
    let part = unlevelled_pump(alloc, input)?;
    Ok(Some(part))
}

/// The money pump where observations have no levels of their own.
fn unlevelled_pump(alloc: Global, input: &Input<'_>) -> Result<PumpPart, NoMemory>
    requires { input.now.table.now.levels ≡ [] }
    ensures { IfOk result (λ part.
        IsReady (input_of_table input.now.table.now) (item.Pump part)) }
{
    let n = input.n();
    prove!(n <= RECORDS);
    let part = pump(alloc, input.costs)?;
    Ok(part)
}
