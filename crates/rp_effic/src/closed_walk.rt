//! Whether weak steps make a closed walk, by taking observations away.
ghost use Rattle.std.specs.Prelude.{◌≡◌, ◌<◌, ◌↔◌, IsTrue, MatchBool, length};
ghost use Rattle.rp_evidence.specs.Preference.{IsLevel, IsWeakAt};
ghost use Rattle.rp_table.specs.Cost.{cost_at};
ghost use Rattle.rp_effic.specs.InnerCycles.{HasCycle};
ghost use Rattle.rp_effic.specs.InnerLeft.{AreLeft, HasLooked, LeadsToLeft, LeadsToNoneLeft};
ghost use Rattle.rp_effic.specs.InnerLeft.{NoneIsLeft, SomeIsLeft};
ghost use Rattle.rp_effic.specs.InnerWeakSteps.{AreWeakSteps};

use crate::weak_steps::WeakSteps;
use rp_evidence::Level;
use rp_pref::weak;
use rp_table::Costs;

/// Whether some closed walk has steps alone that are weak at the level: an observation from which no step leads to one
/// that is left is taken away, again and again, and such a walk exists where any are left in the end. Each listed step
/// is looked at once. What `left` and `at` hold before does not matter.
pub fn has_closed_walk(
    costs: &Costs,
    steps: &WeakSteps,
    level: Level,
    left: &mut [bool],
    at: &mut [u32],
) -> bool
    requires level { IsLevel level.num level.den }
    requires steps { AreWeakSteps costs.now.n costs.now.n (cost_at costs.now)
        steps.now.starts.items steps.now.to.items }
    requires left { length left.old ≡ costs.now.n }
    requires at { length at.old ≡ costs.now.n }
    ensures { IsTrue result ↔ HasCycle costs.now.n (cost_at costs.now) level.num level.den }
{
    begin(costs, steps, level, left, at);
    'sweeps: while take_away(costs, steps, level, left, at) {}
    any_left(left)
}

/// Leaves all observations, each at the start of its row.
fn begin(costs: &Costs, steps: &WeakSteps, level: Level, left: &mut [bool], at: &mut [u32])
    requires steps { AreWeakSteps costs.now.n costs.now.n (cost_at costs.now)
        steps.now.starts.items steps.now.to.items }
    requires left { length left.old ≡ costs.now.n }
    requires at { length at.old ≡ costs.now.n }
    ensures { AreLeft costs.now.n (IsWeakAt (cost_at costs.now) level.num level.den)
        steps.now.starts.items steps.now.to.items left.new at.new }
{
    for s in 0..left.len() {
        left[s] = true;
        at[s] = steps.starts[s];
    }
}

/// Looks once at each observation that is left, and takes it away where no step leads from it to one that is left; says
/// whether any was taken away.
fn take_away(
    costs: &Costs,
    steps: &WeakSteps,
    level: Level,
    left: &mut [bool],
    at: &mut [u32],
) -> bool
    requires level { IsLevel level.num level.den }
    requires steps { AreWeakSteps costs.now.n costs.now.n (cost_at costs.now)
        steps.now.starts.items steps.now.to.items }
    requires left { AreLeft costs.now.n (IsWeakAt (cost_at costs.now) level.num level.den)
        steps.now.starts.items steps.now.to.items left.old at.old }
    ensures left { AreLeft costs.now.n (IsWeakAt (cost_at costs.now) level.num level.den)
        steps.now.starts.items steps.now.to.items left.new at.new }
    ensures looked { HasLooked costs.now.n (IsWeakAt (cost_at costs.now) level.num level.den)
        costs.now.n left.old left.new result }
{
    let mut fewer = false;
    for s in 0..costs.n() {
        if left[s as usize] && !leads_on(costs, steps, level, s, left, at) {
            left[s as usize] = false;
            fewer = true;
        }
    }
    fewer
}

/// Whether a step leads from `s` to an observation that is left. The place where `s` stands moves on to such a step.
fn leads_on(
    costs: &Costs,
    steps: &WeakSteps,
    level: Level,
    s: u32,
    left: &[bool],
    at: &mut [u32],
) -> bool
    requires level { IsLevel level.num level.den }
    requires steps { AreWeakSteps costs.now.n costs.now.n (cost_at costs.now)
        steps.now.starts.items steps.now.to.items }
    requires left { AreLeft costs.now.n (IsWeakAt (cost_at costs.now) level.num level.den)
        steps.now.starts.items steps.now.to.items left.now at.old }
    requires from { s < costs.now.n }
    ensures left { AreLeft costs.now.n (IsWeakAt (cost_at costs.now) level.num level.den)
        steps.now.starts.items steps.now.to.items left.now at.new }
    ensures leads { MatchBool result
        (LeadsToLeft costs.now.n (IsWeakAt (cost_at costs.now) level.num level.den) left.now s)
        (LeadsToNoneLeft costs.now.n (IsWeakAt (cost_at costs.now) level.num level.den) left.now s) }
{
    let end = steps.starts[s as usize + 1];
    for place in at[s as usize]..end {
        let t = steps.to[place as usize];
        if left[t as usize] && weak(costs, level, s, t) {
            at[s as usize] = place;
            return true;
        }
    }
    at[s as usize] = end;
    false
}

/// Whether any observation is left.
fn any_left(left: &[bool]) -> bool
    ensures { MatchBool result (SomeIsLeft (length left.now) left.now)
        (NoneIsLeft (length left.now) left.now) }
{
    for some in left {
        if *some {
            return true;
        }
    }
    false
}
