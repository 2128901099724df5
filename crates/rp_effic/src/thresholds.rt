//! Rising ratios, at each of which it is asked for a closed walk.
ghost use Rattle.std.specs.Prelude.{◌≡◌, ◌<◌, ◌^◌, IfOk, length};
ghost use Rattle.rp_table.specs.Cost.{cost_at};
ghost use Rattle.rp_effic.specs.InnerCycles.{HasCycleFrom};
ghost use Rattle.rp_effic.specs.InnerRatios.{Rise};
ghost use Rattle.rp_effic.specs.InnerWeakSteps.{AreWeakSteps};
ghost use Rattle.rp_effic.specs.Monotone.{IsFirstTrue};

use crate::ask::{Ask, first_true};
use crate::closed_walk::has_closed_walk;
use crate::ratio::Ratio;
use crate::weak_steps::WeakSteps;
use rp_evidence::Level;
use rp_num::NoMemory;
use rp_table::Costs;
use std::alloc::Global;

/// At which of some rising ratios a closed walk of weak steps exists.
#[derive(Drop)]
struct Thresholds<'a> {
    costs: &'a Costs,
    steps: &'a WeakSteps,
    ratios: &'a [Ratio],
    left: Vec<bool>,
    at: Vec<u32>,
    asks: u64,
    ghost rising: { Rise ratios.now },
    ghost few: { length ratios.now < 2 ^ 32 },
    ghost listed: { AreWeakSteps costs.now.n costs.now.n (cost_at costs.now)
        steps.now.starts.items steps.now.to.items },
    ghost left_each: { length left.items ≡ costs.now.n },
    ghost at_each: { length at.items ≡ costs.now.n },
}

impl Ask for Thresholds<'_> {
    ghost use Rattle.std.specs.Prelude.{length};
    ghost use Rattle.rp_effic.specs.InnerCycles.{HasCycleFrom};

    ghost holds = { λ a. HasCycleFrom a.costs.now a.ratios.now };

    ghost places = { λ a. length a.ratios.now };

    ghost asks = { λ a. a.asks };

    fn size(&self) -> u32 {
        self.ratios.len() as u32
    }

    fn ask(&mut self, _alloc: Global, i: u32) -> Result<bool, NoMemory> {
        self.asks += 1;
        let ratio = self.ratios[i as usize];
        let level = Level {
            num: ratio.num,
            den: ratio.den,
        };
        Ok(has_closed_walk(self.costs, self.steps, level, &mut self.left, &mut self.at))
    }
}

/// The place of the first of some rising ratios at which a closed walk of weak steps exists. What the questions need is
/// taken once.
pub fn first_with_closed_walk(
    alloc: Global,
    costs: &Costs,
    steps: &WeakSteps,
    ratios: &[Ratio],
) -> Result<u32, NoMemory>
    requires steps { AreWeakSteps costs.now.n costs.now.n (cost_at costs.now)
        steps.now.starts.items steps.now.to.items }
    requires rising { Rise ratios.now }
    requires few { length ratios.now < 2 ^ 32 }
    ensures { IfOk result (IsFirstTrue (length ratios.now) (HasCycleFrom costs.now ratios.now)) }
{
    let n = costs.n() as usize;
    let mut thresholds = Thresholds {
        costs,
        steps,
        ratios,
        left: vec![in alloc; true; n]?,
        at: vec![in alloc; 0; n]?,
        asks: 0,
    };
    first_true(alloc, &mut thresholds)
}
