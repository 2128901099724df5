//! The best closed walk so far, with its ratio.
ghost use Rattle.std.specs.Prelude.{◌≡◌, ◌∷◌, [], IfOk};
ghost use Rattle.rp_pump.specs.InnerBest.{IsBest};
ghost use Rattle.rp_fit.specs.PumpEvidence.{IsWeakCycle};
ghost use Rattle.rp_table.specs.Cost.{cost_at};

use crate::sums::gained_and_spent;
use rp_num::{NoMemory, Seq, in_lowest_terms};
use rp_table::Costs;
use std::alloc::Global;

/// A closed walk of weak steps, and its ratio in lowest terms.
#[derive(Drop)]
pub(crate) struct Best {
    pub(crate) num: u64,
    pub(crate) den: u64,
    pub(crate) cycle: Seq<u32>,
}

impl Best {
    /// The step from the first observation to itself, which gains nothing.
    pub(crate) fn resting(alloc: Global, costs: &Costs) -> Result<Best, NoMemory>
        ensures best { IfOk result (λ best. IsBest costs.now.n (cost_at costs.now)
            best.num best.den best.cycle) }
        ensures resting { IfOk result (λ best. best.cycle ≡ 0 ∷ 0 ∷ []) }
    {
        prove!(costs.n() > 0);
        let cycle = vec![in alloc; 0, 0]?;
        Ok(Best {
            num: 0,
            den: 1,
            cycle: Seq::from_vec(cycle),
        })
    }

    /// A closed walk of weak steps with its ratio.
    pub(crate) fn of(costs: &Costs, cycle: Seq<u32>) -> Best
        requires { IsWeakCycle costs.now.n (cost_at costs.now) cycle }
        ensures same { result.cycle ≡ cycle }
        ensures best { IsBest costs.now.n (cost_at costs.now) result.num result.den result.cycle }
    {
        let ratio = ratio_of(costs, cycle.as_slice());
        Best {
            num: ratio.0,
            den: ratio.1,
            cycle,
        }
    }
}

/// The ratio of a closed walk of weak steps, in lowest terms.
fn ratio_of(costs: &Costs, walk: &[u32]) -> (u64, u64)
    requires { IsWeakCycle costs.now.n (cost_at costs.now) walk.now }
    ensures { IsBest costs.now.n (cost_at costs.now) result.0 result.1 walk.now }
{
    let (gain, spent) = gained_and_spent(costs, walk);
    in_lowest_terms(gain, spent)
}
