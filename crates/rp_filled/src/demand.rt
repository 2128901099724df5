//! Demand at new prices, both bounds of each good.
ghost use Rattle.std.specs.Prelude.{◌≡◌, ◌<◌, IfOk, length};
ghost use Rattle.rp_evidence.specs.BoundEvidence.{BoundHolds};
ghost use Rattle.rp_evidence.specs.DemandPrograms.{lower_program, upper_program};
ghost use Rattle.rp_evidence.specs.InnerBudget.{input_of, new_budget};
ghost use Rattle.rp_evidence.specs.Input.{input_of_table};
ghost use Rattle.rp_table.specs.Limits.{IsExpenditure};
ghost use Rattle.rp_table.specs.NewPrices.{AreNewPrices};
ghost use Rattle.rp_table.specs.Tables.{goods_of, records_of};
ghost use Rattle.rp_filled.specs.InnerFound.{AreListed, ArePaired, HasLists};
ghost use Rattle.rp_filled.specs.InnerFound.{IsFoundBound, IsFoundDemand, IsFoundGood};

use crate::found::found_bound;
use rp_clauses::input::Input;
use rp_evidence::{Bound, DemandPart, GoodBounds};
use rp_farkas::Measure;
use rp_num::{NoMemory, Seq};
use rp_programs::DemandProgram;
use rp_table::{NewBudget, NewPrices};
use std::alloc::Global;

/// Demand at new prices when `m` is spent, with what is found for each bound.
pub(crate) fn found_demand(
    alloc: Global,
    input: &Input<'_>,
    prices: &[u32],
    m: u64,
    stated: DemandPart,
) -> Result<DemandPart, NoMemory>
    requires prices { AreNewPrices (goods_of input.now.table.now) prices.now }
    requires spent { IsExpenditure m }
    requires lists { HasLists (input_of_table input.now.table.now) stated }
    ensures { IfOk result
        (IsFoundDemand (input_of_table input.now.table.now) prices.now m stated) }
{
    match stated {
        DemandPart::Bounds {
            below,
            strict,
            inner,
            goods,
        } => {
            let at = NewPrices {
                table: input.table,
                costs: input.costs,
                prices,
            };
            let budget = NewBudget { at, m };
            let found = found_goods(alloc, &budget, below.as_slice(), goods.into_vec())?;
            Ok(DemandPart::Bounds {
                below,
                strict,
                inner,
                goods: Seq::from_vec(found),
            })
        }
        DemandPart::NoModel(walk) => Ok(DemandPart::NoModel(walk)),
    }
}

/// The bounds of each good.
fn found_goods(
    alloc: Global,
    budget: &NewBudget<'_>,
    below: &[u32],
    stated: Vec<GoodBounds>,
) -> Result<Vec<GoodBounds>, NoMemory>
    requires below { AreListed (records_of budget.now.at.table.now) below.now }
    requires one_each { length stated.items ≡ goods_of budget.now.at.table.now }
    ensures { IfOk result (λ found. ArePaired (IsFoundGood (input_of budget.now.at)
        (new_budget budget.now) below.now) stated.items found.items) }
{
    prove!(budget.at.table.goods() > 0);
    let mut all = Vec::new(alloc);
    for bounds in stated {
        let g = all.len() as u32;
        let found = found_good(alloc, budget, below, g, bounds)?;
        all.push(found)?;
    }
    Ok(all)
}

/// Both bounds of good `g`.
fn found_good(
    alloc: Global,
    budget: &NewBudget<'_>,
    below: &[u32],
    g: u32,
    stated: GoodBounds,
) -> Result<GoodBounds, NoMemory>
    requires below { AreListed (records_of budget.now.at.table.now) below.now }
    requires good { g < goods_of budget.now.at.table.now }
    ensures { IfOk result (IsFoundGood (input_of budget.now.at) (new_budget budget.now)
        below.now g stated) }
{
    let lower = found_lower(alloc, budget, below, g, stated.lower)?;
    let upper = found_upper(alloc, budget, below, g, stated.upper)?;
    Ok(GoodBounds { lower, upper })
}

/// The lower bound of good `g`.
fn found_lower(
    alloc: Global,
    budget: &NewBudget<'_>,
    below: &[u32],
    g: u32,
    stated: Bound,
) -> Result<Bound, NoMemory>
    requires below { AreListed (records_of budget.now.at.table.now) below.now }
    requires good { g < goods_of budget.now.at.table.now }
    ensures { IfOk result (IsFoundBound (BoundHolds (lower_program (input_of budget.now.at)
        (new_budget budget.now) below.now g) (λ x. x g)) stated) }
{
    found_bound(
        alloc,
        &DemandProgram::least(budget, below, g),
        Measure::Price(g),
        stated,
    )
}

/// The upper bound of good `g`.
fn found_upper(
    alloc: Global,
    budget: &NewBudget<'_>,
    below: &[u32],
    g: u32,
    stated: Bound,
) -> Result<Bound, NoMemory>
    requires below { AreListed (records_of budget.now.at.table.now) below.now }
    requires good { g < goods_of budget.now.at.table.now }
    ensures { IfOk result (IsFoundBound (BoundHolds (upper_program (input_of budget.now.at)
        (new_budget budget.now) below.now g) (λ x. x g)) stated) }
{
    found_bound(
        alloc,
        &DemandProgram::greatest(budget, below, g),
        Measure::Price(g),
        stated,
    )
}
