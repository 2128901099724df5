//! The efficiency index in lowest terms.
ghost use Rattle.std.specs.Prelude.{IfOk};
ghost use Rattle.rp_evidence.specs.Efficiency.{IsEfficiencyIndex};
ghost use Rattle.rp_table.specs.Cost.{cost_at};
ghost use Rattle.rp_effic.specs.EfficiencyVerdict.{IsLowestLevel};

use crate::ratios::ratios_between;
use crate::sampling::sampled_bracket;
use crate::thresholds::first_with_closed_walk;
use crate::weak_steps::weak_steps;
use rp_evidence::Level;
use rp_num::{NoMemory, in_lowest_terms};
use rp_table::Costs;
use std::alloc::Global;

/// The efficiency index in lowest terms: the least ratio at which a closed walk of weak steps exists. It is sought
/// among one ratio of each observation, and then among all those between the two that it lies between.
pub fn efficiency_index(alloc: Global, costs: &Costs) -> Result<Level, NoMemory>
    ensures index { IfOk result
        (λ level. IsEfficiencyIndex costs.now.n (cost_at costs.now) level.num level.den) }
    ensures lowest { IfOk result IsLowestLevel }
{
    let n = costs.n();
    prove!(n > 0);
    let steps = weak_steps(alloc, costs)?;
    let bracket = sampled_bracket(alloc, costs, &steps)?;
    let ratios = ratios_between(alloc, costs, &steps, &bracket)?;
    let place = first_with_closed_walk(alloc, costs, &steps, &ratios)?;
    let ratio = ratios[place as usize];
    let (num, den) = in_lowest_terms(ratio.num, ratio.den);
    Ok(Level { num, den })
}
