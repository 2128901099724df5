//! Bounds on costs, the one from below of each asked record.
ghost use Rattle.std.specs.Prelude.{◌≡◌, ◌≤◌, [], IfOk, slice_index};
ghost use Rattle.rp_cost.specs.Axioms.{MeetsCost};
ghost use Rattle.rp_evidence.specs.BoundEvidence.{BoundHolds};
ghost use Rattle.rp_evidence.specs.Demand.{spending};
ghost use Rattle.rp_evidence.specs.Input.{input_of_table};
ghost use Rattle.rp_evidence.specs.LeastCost.{least_cost_program};
ghost use Rattle.rp_producers.specs.OuterSet.{ListsNotAbove};
ghost use Rattle.rp_table.specs.NewPrices.{AreNewPrices};
ghost use Rattle.rp_table.specs.Tables.{goods_of, records_of};
ghost use Rattle.rp_cost.specs.CostBounds.{AreCostBounds, LowerHolds};
ghost use Rattle.rp_filled.specs.FilledCosts.{AreFilledBounds, AreFilledCosts, AreGivenCosts};
ghost use Rattle.rp_filled.specs.FilledCosts.{IsFilledCost};
ghost use Rattle.rp_filled.specs.InnerFound.{AreListed, IsFoundBound};

use crate::found::found_bound;
use rp_cost::{Asked, Axiom, CostBounds, Tech, cost_axiom};
use rp_evidence::Bound;
use rp_farkas::Measure;
use rp_num::NoMemory;
use rp_programs::LeastCostProgram;
use std::alloc::Global;

/// The bounds of each asked record, with what a tableau over one denominator finds for each lower one that is withheld.
pub fn fill_costs(
    alloc: Global,
    tech: &Tech,
    asked: &Asked,
    stated: Vec<CostBounds>,
) -> Result<Vec<CostBounds>, NoMemory>
    requires inputs { asked.now.prices.goods ≡ goods_of tech.now.table }
    requires given { MeetsCost tech.now → AreGivenCosts tech.now asked.now stated.items }
    requires none { ¬ MeetsCost tech.now → stated.items ≡ [] }
    ensures { IfOk result
        (λ filled. AreFilledBounds tech.now asked.now stated.items filled.items) }
{
    match cost_axiom(tech) {
        Axiom::Holds => filled_costs(alloc, tech, asked, stated),
        Axiom::Pair { .. } => Ok(stated),
    }
}

/// The bounds of each asked record under the cost axiom.
fn filled_costs(
    alloc: Global,
    tech: &Tech,
    asked: &Asked,
    stated: Vec<CostBounds>,
) -> Result<Vec<CostBounds>, NoMemory>
    requires inputs { asked.now.prices.goods ≡ goods_of tech.now.table }
    requires minimises { MeetsCost tech.now }
    requires given { AreGivenCosts tech.now asked.now stated.items }
    ensures { IfOk result
        (λ filled. AreFilledCosts tech.now asked.now stated.items filled.items) }
{
    prove!(asked.count() > 0);
    let mut all = Vec::new(alloc);
    for bounds in stated {
        let i = all.len() as u32;
        let found = filled_cost(alloc, tech, asked.row(i), asked.y(i), bounds)?;
        all.push(found)?;
    }
    Ok(all)
}

/// The bounds of the output `y` at the new prices.
fn filled_cost(
    alloc: Global,
    tech: &Tech,
    prices: &[u32],
    y: u32,
    stated: CostBounds,
) -> Result<CostBounds, NoMemory>
    requires minimises { MeetsCost tech.now }
    requires prices { AreNewPrices (goods_of tech.now.table) prices.now }
    requires given { AreCostBounds (input_of_table tech.now.table) (slice_index tech.now.y) y
        (slice_index prices.now) stated }
    ensures { IfOk result (IsFilledCost tech.now prices.now y stated) }
{
    let lower = filled_lower(alloc, tech, prices, y, stated.lower)?;
    Ok(CostBounds {
        upper: stated.upper,
        lower,
    })
}

/// The bound from below.
fn filled_lower(
    alloc: Global,
    tech: &Tech,
    prices: &[u32],
    y: u32,
    stated: Bound,
) -> Result<Bound, NoMemory>
    requires { AreNewPrices (goods_of tech.now.table) prices.now }
    ensures { IfOk result (IsFoundBound (LowerHolds (input_of_table tech.now.table)
        (slice_index tech.now.y) y (slice_index prices.now)) stated) }
{
    let listed = not_above(alloc, tech, y)?;
    found_over(alloc, tech, prices, listed.as_slice(), stated)
}

/// The observations that made `y` or less, in increasing order.
fn not_above(alloc: Global, tech: &Tech, y: u32) -> Result<Vec<u32>, NoMemory>
    ensures lists { IfOk result (λ list. ListsNotAbove (input_of_table tech.now.table)
        (slice_index tech.now.y) y list.items) }
    ensures listed { IfOk result (λ list. AreListed (records_of tech.now.table) list.items) }
{
    let mut list = Vec::new(alloc);
    for t in 0..tech.count() {
        if tech.y(t) <= y {
            list.push(t)?;
        }
    }
    Ok(list)
}

/// The bound of the program of least cost over these observations.
fn found_over(
    alloc: Global,
    tech: &Tech,
    prices: &[u32],
    listed: &[u32],
    stated: Bound,
) -> Result<Bound, NoMemory>
    requires prices { AreNewPrices (goods_of tech.now.table) prices.now }
    requires listed { AreListed (records_of tech.now.table) listed.now }
    ensures { IfOk result (IsFoundBound (BoundHolds (least_cost_program
        (input_of_table tech.now.table) (slice_index prices.now) listed.now)
        (spending (goods_of tech.now.table) (slice_index prices.now))) stated) }
{
    found_bound(
        alloc,
        &LeastCostProgram::make(tech.table(), prices, listed),
        Measure::Cost,
        stated,
    )
}
