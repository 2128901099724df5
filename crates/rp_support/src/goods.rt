//! The bounds of each good on a new budget.
ghost use Rattle.std.specs.Prelude.{◌<◌, IfOk};
ghost use Rattle.rp_evidence.specs.Demand.{HasSupport};
ghost use Rattle.rp_evidence.specs.DemandPrograms.{ListsBelow, lower_program, upper_program};
ghost use Rattle.rp_table.specs.Tables.{goods_of};
ghost use Rattle.rp_evidence.specs.InnerBudget.{input_of, new_budget};
ghost use Rattle.rp_simplex.specs.ProgramBound.{IsBoundOf};
ghost use Rattle.rp_support.specs.Bounds.{AreBoundsOf};

use rp_evidence::{Bound, GoodBounds};
use rp_farkas::Measure;
use rp_num::NoMemory;
use rp_programs::DemandProgram;
use rp_simplex::bound_of;
use rp_table::NewBudget;
use std::alloc::Global;

/// The bounds of each good.
pub fn goods(alloc: Global, budget: &NewBudget, below: &[u32]) -> Result<Vec<GoodBounds>, NoMemory>
    requires below { ListsBelow (input_of budget.now.at) (new_budget budget.now) below.now }
    requires support { HasSupport (input_of budget.now.at) (new_budget budget.now) }
    ensures { IfOk result (λ goods. AreBoundsOf (input_of budget.now.at)
        (new_budget budget.now) below.now goods.items) }
{
    let mut goods = Vec::new(alloc);
    for g in 0..budget.at.table.goods() {
        let lower = lower_bound(alloc, budget, below, g)?;
        let upper = upper_bound(alloc, budget, below, g)?;
        goods.push(GoodBounds { lower, upper })?;
    }
    Ok(goods)
}

/// The least of good `g`.
fn lower_bound(alloc: Global, budget: &NewBudget, below: &[u32], g: u32) -> Result<Bound, NoMemory>
    requires below { ListsBelow (input_of budget.now.at) (new_budget budget.now) below.now }
    requires support { HasSupport (input_of budget.now.at) (new_budget budget.now) }
    requires good { g < goods_of budget.now.at.table.now }
    ensures { IfOk result (λ bound. IsBoundOf (lower_program (input_of budget.now.at)
        (new_budget budget.now) below.now g) (λ x. x g) bound) }
{
    prove!(budget.at.n() > 0);
    bound_of(
        alloc,
        &DemandProgram::least(budget, below, g),
        Measure::Price(g),
    )
}

/// The greatest of good `g`.
fn upper_bound(alloc: Global, budget: &NewBudget, below: &[u32], g: u32) -> Result<Bound, NoMemory>
    requires below { ListsBelow (input_of budget.now.at) (new_budget budget.now) below.now }
    requires support { HasSupport (input_of budget.now.at) (new_budget budget.now) }
    requires good { g < goods_of budget.now.at.table.now }
    ensures { IfOk result (λ bound. IsBoundOf (upper_program (input_of budget.now.at)
        (new_budget budget.now) below.now g) (λ x. x g) bound) }
{
    prove!(budget.at.n() > 0);
    bound_of(
        alloc,
        &DemandProgram::greatest(budget, below, g),
        Measure::Price(g),
    )
}
