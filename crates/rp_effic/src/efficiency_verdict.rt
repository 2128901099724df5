//! The efficiency index with its evidence.
ghost use Rattle.std.specs.Prelude.{IfOk};
ghost use Rattle.rp_evidence.specs.Efficiency.{IsLeastGreatestRatio, ProvesEfficiency};
ghost use Rattle.rp_people.specs.Says.{SaysEfficiency};
ghost use Rattle.rp_people.specs.TablesOfCosts.{OfEachTable};
ghost use Rattle.rp_table.specs.Cost.{cost_at};
ghost use Rattle.rp_effic.specs.EfficiencyVerdict.{IsEfficiencyVerdict};

use crate::above::above_index;
use crate::index::efficiency_index;
use rp_evidence::Efficiency;
use rp_num::NoMemory;
use rp_pref::{Closure, Steps, verdict_at};
use rp_table::Costs;
use std::alloc::Global;

/// The critical cost efficiency index (Afriat 1973), the least level at which a closed walk of weak steps exists,
/// with the counts over the strict steps at it, the shortest such walk, and the counts over the weak steps or a
/// violation.
pub fn efficiency(alloc: Global, costs: &Costs) -> Result<Efficiency, NoMemory>
    ensures proves { IfOk result (ProvesEfficiency costs.now.n (cost_at costs.now)) }
    ensures says { IfOk result (λ evidence.
        OfEachTable costs.now (λ input. SaysEfficiency input evidence)) }
    ensures given { IfOk result (IsEfficiencyVerdict costs.now.n (cost_at costs.now)) }
    ensures threshold { IfOk result
        (λ evidence. IsLeastGreatestRatio costs.now.n (cost_at costs.now)
        evidence.level.num evidence.level.den) }
{
    let n = costs.n();
    prove!(n > 0);
    let level = efficiency_index(alloc, costs)?;
    let strict = Closure::of(alloc, costs, level, Steps::Strict)?;
    let below = strict.counts(alloc)?;
    let weak = Closure::of(alloc, costs, level, Steps::Weak)?;
    let above = above_index(alloc, costs, level, &weak)?;
    let at = verdict_at(alloc, costs, level, &weak)?;
    Ok(Efficiency {
        level,
        below,
        above,
        at,
    })
}
