//! The lower bound of the money metric of an observation.
ghost use Rattle.std.specs.Prelude.{◌<◌, IfOk, slice_index};
ghost use Rattle.rp_check.specs.WelfareFailure.{LowerHolds};
ghost use Rattle.rp_evidence.specs.BoundEvidence.{BoundHolds};
ghost use Rattle.rp_evidence.specs.Demand.{spending};
ghost use Rattle.rp_evidence.specs.Input.{input_of_table};
ghost use Rattle.rp_evidence.specs.LeastCost.{least_cost_program};
ghost use Rattle.rp_evidence.specs.Reached.{IsWeakClosureOf};
ghost use Rattle.rp_evidence.specs.Welfare.{ListsReached};
ghost use Rattle.rp_table.specs.NewPrices.{AreNewPrices};
ghost use Rattle.rp_table.specs.Tables.{goods_of, records_of};
ghost use Rattle.rp_filled.specs.InnerFound.{AreListed, IsFoundBound, IsFoundWelfare};

use crate::found::found_bound;
use rp_clauses::closure::Reachability;
use rp_clauses::input::Input;
use rp_evidence::{Bound, WelfarePart};
use rp_farkas::Measure;
use rp_num::NoMemory;
use rp_programs::LeastCostProgram;
use std::alloc::Global;

/// The money metric of observation `t` at new prices, with what is found for its lower bound.
pub(crate) fn found_welfare(
    alloc: Global,
    input: &Input<'_>,
    closure: &Reachability,
    prices: &[u32],
    t: u32,
    stated: WelfarePart,
) -> Result<WelfarePart, NoMemory>
    requires closure { IsWeakClosureOf closure.now (input_of_table input.now.table.now) }
    requires prices { AreNewPrices (goods_of input.now.table.now) prices.now }
    requires observed { t < records_of input.now.table.now }
    ensures { IfOk result
        (IsFoundWelfare (input_of_table input.now.table.now) prices.now t stated) }
{
    match stated {
        WelfarePart::Bounds { upper, at, lower } => {
            let lower = found_lower(alloc, input, closure, prices, t, lower)?;
            Ok(WelfarePart::Bounds { upper, at, lower })
        }
        WelfarePart::NoModel(walk) => Ok(WelfarePart::NoModel(walk)),
    }
}

/// The lower bound of `t`.
fn found_lower(
    alloc: Global,
    input: &Input<'_>,
    closure: &Reachability,
    prices: &[u32],
    t: u32,
    stated: Bound,
) -> Result<Bound, NoMemory>
    requires closure { IsWeakClosureOf closure.now (input_of_table input.now.table.now) }
    requires prices { AreNewPrices (goods_of input.now.table.now) prices.now }
    requires observed { t < records_of input.now.table.now }
    ensures { IfOk result (IsFoundBound (LowerHolds (input_of_table input.now.table.now)
        (slice_index prices.now) t) stated) }
{
    let reached = reached_from(alloc, input, closure, t)?;
    found_over(alloc, input, prices, reached.as_slice(), stated)
}

/// The bound of the program of least cost over these observations.
fn found_over(
    alloc: Global,
    input: &Input<'_>,
    prices: &[u32],
    list: &[u32],
    stated: Bound,
) -> Result<Bound, NoMemory>
    requires prices { AreNewPrices (goods_of input.now.table.now) prices.now }
    requires listed { AreListed (records_of input.now.table.now) list.now }
    ensures { IfOk result (IsFoundBound (BoundHolds (least_cost_program
        (input_of_table input.now.table.now) (slice_index prices.now) list.now)
        (spending (goods_of input.now.table.now) (slice_index prices.now))) stated) }
{
    found_bound(
        alloc,
        &LeastCostProgram::make(input.table, prices, list),
        Measure::Cost,
        stated,
    )
}

/// The observation `t` and all that it reaches, in increasing order.
fn reached_from(
    alloc: Global,
    input: &Input<'_>,
    closure: &Reachability,
    t: u32,
) -> Result<Vec<u32>, NoMemory>
    requires closure { IsWeakClosureOf closure.now (input_of_table input.now.table.now) }
    requires observed { t < records_of input.now.table.now }
    ensures reached { IfOk result
        (λ reached. ListsReached (input_of_table input.now.table.now) t reached.items) }
    ensures listed { IfOk result
        (λ reached. AreListed (records_of input.now.table.now) reached.items) }
{
    let mut reached = Vec::new(alloc);
    for s in 0..input.n() {
        if closure.equals_or_reaches(t, s) {
            reached.push(s)?;
        }
    }
    Ok(reached)
}
