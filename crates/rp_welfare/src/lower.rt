//! The bound on the money metric from below.
ghost use Rattle.std.specs.Prelude.{◌<◌, ◌≤◌, All, IfOk, length, slice_index};
ghost use Rattle.rp_simplex.specs.ProgramBound.{IsBoundOf, ShowsLeastCost};
ghost use Rattle.rp_evidence.specs.DemandEvidence.{ProvesLowerWelfare};
ghost use Rattle.rp_evidence.specs.Garp.{MeetsGarp};
ghost use Rattle.rp_evidence.specs.Input.{input_of_table};
ghost use Rattle.rp_evidence.specs.LeastCost.{least_cost_program};
ghost use Rattle.rp_farkas.specs.Prices.{HasFeasiblePrices};
ghost use Rattle.rp_table.specs.Cost.{cost_of};
ghost use Rattle.rp_table.specs.Spending.{spending};
ghost use Rattle.rp_table.specs.Tables.{goods_of, records_of};
ghost use Rattle.rp_limits.specs.declared.table.TheConstants.{RECORDS};
ghost use Rattle.rp_pref.specs.Closure.{IsWeakClosureOf};
ghost use Rattle.rp_welfare.specs.WelfareVerdict.{IsLowerBound};

use crate::reached::reached_from;
use rp_evidence::Bound;
use rp_farkas::Measure;
use rp_num::NoMemory;
use rp_pref::Closure;
use rp_programs::LeastCostProgram;
use rp_simplex::bound_of;
use rp_table::NewPrices;
use std::alloc::Global;

/// The lower bound of `t`: the bundle of `t` is in its region, and so its program has feasible prices.
pub(crate) fn lower_bound(
    alloc: Global,
    new: &NewPrices,
    closure: &Closure,
    t: u32,
) -> Result<Bound, NoMemory>
    requires sound { MeetsGarp (records_of new.now.table.now) (cost_of new.now.table.now) }
    requires closes { IsWeakClosureOf closure.now (input_of_table new.now.table.now) }
    requires observed { t < records_of new.now.table.now }
    ensures proves { IfOk result (λ bound. ProvesLowerWelfare (input_of_table new.now.table.now)
        (slice_index new.now.prices.now) t bound) }
    ensures given { IfOk result (λ bound. IsLowerBound (input_of_table new.now.table.now)
        (slice_index new.now.prices.now) t bound) }
{
    let reached = reached_from(alloc, new.table, closure, t)?;
    bound_over(alloc, new, &reached)
}

/// The bound of the program over these observations.
fn bound_over(alloc: Global, new: &NewPrices, reached: &[u32]) -> Result<Bound, NoMemory>
    requires observed { All (λ s. s < records_of new.now.table.now) reached.now }
    requires few { length reached.now ≤ RECORDS }
    requires prices { HasFeasiblePrices (least_cost_program (input_of_table new.now.table.now)
        (slice_index new.now.prices.now) reached.now) }
    ensures bound { IfOk result (IsBoundOf (least_cost_program (input_of_table new.now.table.now)
        (slice_index new.now.prices.now) reached.now)
        (spending (goods_of new.now.table.now) (slice_index new.now.prices.now))) }
    ensures least { IfOk result (ShowsLeastCost (least_cost_program
        (input_of_table new.now.table.now) (slice_index new.now.prices.now) reached.now)) }
{
    bound_of(
        alloc,
        &LeastCostProgram::make(new.table, new.prices, reached),
        Measure::Cost,
    )
}
