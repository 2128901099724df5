//! The bound on a cost from below.
ghost use Rattle.std.specs.Prelude.{◌<◌, ◌≤◌, All, IfOk, length, slice_index};
ghost use Rattle.rp_simplex.specs.ProgramBound.{IsBoundOf, ShowsLeastCost};
ghost use Rattle.rp_evidence.specs.Input.{input_of_table};
ghost use Rattle.rp_evidence.specs.LeastCost.{least_cost_program};
ghost use Rattle.rp_farkas.specs.Prices.{HasFeasiblePrices};
ghost use Rattle.rp_table.specs.Spending.{spending};
ghost use Rattle.rp_table.specs.Tables.{goods_of, records_of};
ghost use Rattle.rp_limits.specs.declared.table.TheConstants.{RECORDS};
ghost use Rattle.rp_cost.specs.CostBounds.{IsLowerCostBound, ProvesLowerCost};

use crate::listed::write_not_above;
use crate::question::Question;
use rp_clauses::reach::ROOM;
use rp_evidence::Bound;
use rp_farkas::Measure;
use rp_num::NoMemory;
use rp_simplex::bound_of;
use std::alloc::Global;

/// The bound from below. Enough of every input is in the outer set, so its program has feasible prices.
pub(crate) fn lower_bound(alloc: Global, question: &Question<'_>) -> Result<Bound, NoMemory>
    ensures proves { IfOk result (ProvesLowerCost (input_of_table question.now.tech.now.table)
        (slice_index question.now.tech.now.y) question.now.y
        (slice_index question.now.prices.now)) }
    ensures given { IfOk result (IsLowerCostBound (input_of_table question.now.tech.now.table)
        (slice_index question.now.tech.now.y) question.now.y
        (slice_index question.now.prices.now)) }
{
    prove!(question.tech.count() as usize <= ROOM);
    let mut list = [0; ROOM];
    let count = write_not_above(question.tech, question.y, &mut list);
    bound_over(alloc, question, &list[..count])
}

/// The bound of the program over these observations.
fn bound_over(alloc: Global, question: &Question<'_>, listed: &[u32]) -> Result<Bound, NoMemory>
    requires observed { All (λ t. t < records_of question.now.tech.now.table) listed.now }
    requires few { length listed.now ≤ RECORDS }
    requires prices { HasFeasiblePrices (least_cost_program (input_of_table
        question.now.tech.now.table) (slice_index question.now.prices.now) listed.now) }
    ensures bound { IfOk result (IsBoundOf (least_cost_program
        (input_of_table question.now.tech.now.table) (slice_index question.now.prices.now)
        listed.now) (spending (goods_of question.now.tech.now.table)
        (slice_index question.now.prices.now))) }
    ensures least { IfOk result (ShowsLeastCost (least_cost_program
        (input_of_table question.now.tech.now.table) (slice_index question.now.prices.now)
        listed.now)) }
{
    bound_of(alloc, &question.program(listed), Measure::Cost)
}
