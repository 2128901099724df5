//! What a table supports at new prices.
ghost use Rattle.std.specs.Prelude.{◌≡◌, [], IfOk};
ghost use Rattle.rp_evidence.specs.DemandEvidence.{ProvesDemand, budget_of};
ghost use Rattle.rp_evidence.specs.Garp.{MeetsGarp};
ghost use Rattle.rp_evidence.specs.Input.{input_of_table};
ghost use Rattle.rp_garp.specs.Test.{IsTestOf};
ghost use Rattle.rp_people.specs.Says.{SaysDemand};
ghost use Rattle.rp_pref.specs.Closure.{IsWeakClosureOf};
ghost use Rattle.rp_table.specs.Cost.{cost_of};
ghost use Rattle.rp_table.specs.Limits.{IsExpenditure};
ghost use Rattle.rp_table.specs.NewPrices.{AreNewPrices};
ghost use Rattle.rp_table.specs.Tables.{goods_of, records_of};
ghost use Rattle.rp_evidence.specs.InnerBudget.{input_of, new_budget};
ghost use Rattle.rp_support.specs.DemandVerdict.{HasMixtures, IsDemandVerdict, AreDemandBounds};

use crate::below::{below, strictly_below};
use crate::goods::goods;
use crate::inner::inner;
use rp_evidence::{DemandPart, Garp};
use rp_garp::GarpTest;
use rp_num::{NoMemory, Seq};
use rp_pref::Closure;
use rp_table::{NewBudget, NewPrices, Table};
use std::alloc::Global;

/// What the table supports at new prices when `m` is spent (Varian 1982), or the violation that its test shows. Prices
/// are scaled as those of the table, and `m` by both scales. The observations have no levels of their own.
pub fn demand(
    alloc: Global,
    table: &Table,
    tested: &GarpTest,
    prices: &[u32],
    m: u64,
) -> Result<DemandPart, NoMemory>
    requires is_test { IsTestOf table.now tested.now }
    requires no_levels { table.now.levels ≡ [] }
    requires prices { AreNewPrices (goods_of table.now) prices.now }
    requires spent { IsExpenditure m }
    ensures proves { IfOk result (λ part.
        ProvesDemand (input_of_table table.now) prices.now m part) }
    ensures says { IfOk result (λ part.
        SaysDemand (input_of_table table.now) prices.now m part) }
    ensures given { IfOk result (λ part. IsDemandVerdict (input_of_table table.now)
        (budget_of prices.now m) tested.now.garp part) }
    ensures mixtures { IfOk result (λ part.
        HasMixtures (input_of_table table.now) (budget_of prices.now m) part) }
{
    match &tested.garp {
        Garp::Ranks(_) => {
            let at = NewPrices {
                table,
                costs: &tested.costs,
                prices,
            };
            bounds(alloc, &NewBudget { at, m }, &tested.closure)
        }
        Garp::Cycle(walk) => {
            let walk = Vec::from_slice(alloc, walk.as_slice())?;
            Ok(DemandPart::NoModel(Seq::from_vec(walk)))
        }
    }
}

/// What is given where the table meets the axiom.
fn bounds(alloc: Global, budget: &NewBudget, closure: &Closure) -> Result<DemandPart, NoMemory>
    requires sound { MeetsGarp (records_of budget.now.at.table.now)
        (cost_of budget.now.at.table.now) }
    requires closes { IsWeakClosureOf closure.now (input_of budget.now.at) }
    ensures proves { IfOk result (λ part.
        ProvesDemand (input_of budget.now.at) budget.now.at.prices.now budget.now.m part) }
    ensures says { IfOk result (λ part.
        SaysDemand (input_of budget.now.at) budget.now.at.prices.now budget.now.m part) }
    ensures given { IfOk result (λ part. AreDemandBounds (input_of budget.now.at)
        (new_budget budget.now) part) }
    ensures mixtures { IfOk result (λ part. HasMixtures (input_of budget.now.at)
        (new_budget budget.now) part) }
{
    prove!(budget.at.table.goods() > 0);
    let below = below(alloc, budget, closure)?;
    let strict = strictly_below(alloc, budget, closure, &below)?;
    let inner = inner(alloc, budget, closure)?;
    let goods = goods(alloc, budget, &below)?;
    Ok(DemandPart::Bounds {
        below: Seq::from_vec(below),
        strict: Seq::from_vec(strict),
        inner,
        goods: Seq::from_vec(goods),
    })
}
