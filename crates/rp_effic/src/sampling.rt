//! A bracket of the index, by one ratio of each observation.
ghost use Rattle.std.specs.Prelude.{◌<◌, IfOk, length};
ghost use Rattle.rp_table.specs.Cost.{cost_at};
ghost use Rattle.rp_effic.specs.InnerBracket.{IsBracket};
ghost use Rattle.rp_effic.specs.InnerCycles.{HasCycle, HasCycleFrom};
ghost use Rattle.rp_effic.specs.InnerWeakSteps.{AreWeakSteps};
ghost use Rattle.rp_effic.specs.Monotone.{IsFirstTrue};

use crate::bracket::Bracket;
use crate::ratio::Ratio;
use crate::ratios::sampled_ratios;
use crate::thresholds::first_with_closed_walk;
use crate::weak_steps::WeakSteps;
use rp_evidence::Level;
use rp_num::NoMemory;
use rp_table::Costs;
use std::alloc::Global;

/// A bracket of the index whose ends are next to each other among one ratio of each observation.
pub fn sampled_bracket(alloc: Global, costs: &Costs, steps: &WeakSteps) -> Result<Bracket, NoMemory>
    requires { AreWeakSteps costs.now.n costs.now.n (cost_at costs.now)
        steps.now.starts.items steps.now.to.items }
    ensures { IfOk result (IsBracket costs.now.n (cost_at costs.now)) }
{
    let n = costs.n();
    prove!(n > 0);
    let ratios = sampled_ratios(alloc, costs, steps)?;
    let place = first_with_closed_walk(alloc, costs, steps, &ratios)?;
    Ok(Bracket {
        low: ratio_before(costs, &ratios, place),
        high: ratios[place as usize],
    })
}

/// The ratio before the first at which a closed walk of weak steps exists, or 0 where that is the first of all.
fn ratio_before(costs: &Costs, ratios: &[Ratio], place: u32) -> Level
    requires first { IsFirstTrue (length ratios.now) (HasCycleFrom costs.now ratios.now) place }
    requires place { place < length ratios.now }
    ensures none { ¬ HasCycle costs.now.n (cost_at costs.now) result.num result.den }
    ensures positive { 0 < result.den }
{
    let n = costs.n();
    prove!(n > 0);
    if place == 0 {
        return Level { num: 0, den: 1 };
    }
    let ratio = ratios[place as usize - 1];
    Level {
        num: ratio.num,
        den: ratio.den,
    }
}
