//! The steps that are weak at the level 1, listed row by row.
ghost use Rattle.std.specs.Prelude.{◌<◌, ◌≤◌, ◌*◌, IfOk, OnOk, length};
ghost use Rattle.rp_table.specs.Cost.{cost_at};
ghost use Rattle.rp_effic.specs.InnerWeakSteps.{AddsRow, AreWeakSteps};

use rp_num::NoMemory;
use rp_table::Costs;
use std::alloc::Global;

/// Of each observation those whose bundles cost at its prices no more than it spent, row by row: the steps that are
/// weak at the level 1. A lower level has some of them, and no other.
#[derive(Drop)]
pub struct WeakSteps {
    /// Where the row of each observation starts in `to`, and where the last one ends.
    pub starts: Vec<u32>,
    pub to: Vec<u32>,
}

/// The steps of a table that are weak at the level 1.
pub fn weak_steps(alloc: Global, costs: &Costs) -> Result<WeakSteps, NoMemory>
    ensures { IfOk result (λ steps. AreWeakSteps costs.now.n costs.now.n (cost_at costs.now)
        steps.starts.items steps.to.items) }
{
    let mut starts = Vec::new(alloc);
    let mut to = Vec::new(alloc);
    starts.push(0)?;
    for s in 0..costs.n() {
        add_row(costs, s, &mut to)?;
        starts.push(to.len() as u32)?;
    }
    Ok(WeakSteps { starts, to })
}

/// Adds the observations whose bundles cost at the prices of `s` no more than was spent at `s`.
fn add_row(costs: &Costs, s: u32, to: &mut Vec<u32>) -> Result<(), NoMemory>
    requires from { s < costs.now.n }
    requires room { length to.old.items ≤ s * costs.now.n }
    ensures { OnOk result (AddsRow costs.now.n (cost_at costs.now) s costs.now.n
        to.old.items to.new.items) }
{
    let spent = costs.cost(s, s);
    for t in 0..costs.n() {
        if costs.cost(s, t) <= spent {
            to.push(t)?;
        }
    }
    Ok(())
}
