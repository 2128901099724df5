//! The walk that shows the axiom broken above the index.
ghost use Rattle.std.specs.Prelude.{IfOk};
ghost use Rattle.rp_evidence.specs.Preference.{IsLevel};
ghost use Rattle.rp_pref.specs.Closure.{IsClosureOf};
ghost use Rattle.rp_pref.specs.Steps.{WeakAt};
ghost use Rattle.rp_table.specs.Cost.{cost_at};
ghost use Rattle.rp_effic.specs.InnerCycles.{HasCycle};
ghost use Rattle.rp_effic.specs.EfficiencyVerdict.{IsAbove};

use crate::returning::first_return;
use rp_evidence::Level;
use rp_num::{NoMemory, Seq};
use rp_pref::{AtLevel, Closure, shortest_weak_walk};
use rp_table::Costs;
use std::alloc::Global;

/// Empty at the level 1; else a shortest walk of weak steps from an observation back to it, the first that has one.
pub fn above_index(
    alloc: Global,
    costs: &Costs,
    level: Level,
    closure: &Closure,
) -> Result<Seq<u32>, NoMemory>
    requires level { IsLevel level.num level.den }
    requires closed { IsClosureOf closure.now costs.now.n (WeakAt costs.now level) }
    requires returns { HasCycle costs.now.n (cost_at costs.now) level.num level.den }
    ensures { IfOk result (IsAbove costs.now.n (cost_at costs.now) level.num level.den) }
{
    if level.num == level.den {
        return Ok(Seq::from_vec(Vec::new(alloc)));
    }
    match first_return(costs, closure) {
        Some(s) => shortest_weak_walk(alloc, &AtLevel { costs, level }, s, s),
        None => unreachable!(),
    }
}
