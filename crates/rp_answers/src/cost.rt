//! The answer of `cost`.
ghost use Rattle.std.specs.Prelude.{◌≡◌, IfOk};
ghost use Rattle.rp_cost.specs.Axioms.{MeetsCost};
ghost use Rattle.rp_table.specs.Tables.{goods_of};
ghost use Rattle.rp_answers.specs.CostText.{AreBoundsOfEach, AreBoundsUnder, IsCostTextBy};

use crate::edition::Edition;
use rp_cost::{Asked, Axiom, CostBounds, Tech, cost_axiom, cost_bounds};
use rp_num::{NoMemory, Seq};
use std::alloc::Global;

/// The report of the axioms of production on a technology, and of what each asked output costs at its prices.
pub fn cost_text<P: Edition>(alloc: Global, tech: &Tech, asked: &Asked) -> Result<Vec<u8>, NoMemory>
    requires { asked.now.prices.goods ≡ goods_of tech.now.table }
    ensures { IfOk result (λ text. IsCostTextBy P.printed tech.now asked.now text.items) }
{
    let bounds = Seq::from_vec(bounds_under(alloc, tech, asked)?);
    let text = P::print_costs(alloc, tech, asked, bounds)?;
    Ok(text)
}

/// Bounds of each asked record where the technology meets the cost axiom, and else nothing.
fn bounds_under(alloc: Global, tech: &Tech, asked: &Asked) -> Result<Vec<CostBounds>, NoMemory>
    requires { asked.now.prices.goods ≡ goods_of tech.now.table }
    ensures { IfOk result (λ bounds. AreBoundsUnder tech.now asked.now bounds.items) }
{
    match cost_axiom(tech) {
        Axiom::Holds => bounds_of_each(alloc, tech, asked),
        Axiom::Pair { .. } => Ok(Vec::new(alloc)),
    }
}

/// The bounds of each asked record.
fn bounds_of_each(alloc: Global, tech: &Tech, asked: &Asked) -> Result<Vec<CostBounds>, NoMemory>
    requires inputs { asked.now.prices.goods ≡ goods_of tech.now.table }
    requires minimises { MeetsCost tech.now }
    ensures { IfOk result (λ bounds. AreBoundsOfEach tech.now asked.now bounds.items) }
{
    let mut all = Vec::new(alloc);
    for i in 0..asked.count() {
        let bounds = cost_bounds(alloc, tech, asked.row(i), asked.y(i))?;
        all.push(bounds)?;
    }
    Ok(all)
}
