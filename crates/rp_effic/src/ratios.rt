//! The ratios of a table between two bounds, in rising order.
ghost use Rattle.std.specs.Prelude.{◌≡◌, ◌<◌, ◌≤◌, ◌+◌, ◌*◌, ◌^◌, ◌↔◌, IsTrue, length};
ghost use Rattle.std.specs.Prelude.{IfNone, IfOk, IfSome, OnOk, slice_index};
ghost use Rattle.rp_table.specs.Cost.{cost_at};
ghost use Rattle.rp_effic.specs.InnerBracket.{AddsBetween, AreBetween, IsBetween};
ghost use Rattle.rp_effic.specs.InnerRatios.{HasOne, Rise};
ghost use Rattle.rp_effic.specs.InnerWeakSteps.{AreWeakSteps};

use crate::bracket::Bracket;
use crate::ratio::Ratio;
use crate::weak_steps::WeakSteps;
use rp_num::NoMemory;
use rp_table::Costs;
use std::alloc::Global;

/// One ratio of each observation, that of the step in the middle of its row, and 1, in rising order.
pub fn sampled_ratios(
    alloc: Global,
    costs: &Costs,
    steps: &WeakSteps,
) -> Result<Vec<Ratio>, NoMemory>
    requires { AreWeakSteps costs.now.n costs.now.n (cost_at costs.now)
        steps.now.starts.items steps.now.to.items }
    ensures one { IfOk result (λ ratios. HasOne ratios.items) }
    ensures rise { IfOk result (λ ratios. Rise ratios.items) }
    ensures small { IfOk result (λ ratios. length ratios.items < 2 ^ 32) }
{
    let mut ratios = all_sampled(alloc, costs, steps)?;
    ratios.sort_unstable();
    Ok(ratios)
}

/// One ratio of each observation, and 1, in the order of the observations.
fn all_sampled(alloc: Global, costs: &Costs, steps: &WeakSteps) -> Result<Vec<Ratio>, NoMemory>
    requires { AreWeakSteps costs.now.n costs.now.n (cost_at costs.now)
        steps.now.starts.items steps.now.to.items }
    ensures one { IfOk result (λ ratios. HasOne ratios.items) }
    ensures small { IfOk result (λ ratios. length ratios.items < 2 ^ 32) }
{
    let mut ratios = Vec::new(alloc);
    ratios.push(Ratio { num: 1, den: 1 })?;
    for s in 0..costs.n() {
        if let Some(ratio) = middle_ratio(costs, steps, s) {
            ratios.push(ratio)?;
        }
    }
    Ok(ratios)
}

/// The ratio of the step in the middle of the row of `s`.
fn middle_ratio(costs: &Costs, steps: &WeakSteps, s: u32) -> Option<Ratio>
    requires steps { AreWeakSteps costs.now.n costs.now.n (cost_at costs.now)
        steps.now.starts.items steps.now.to.items }
    requires from { s < costs.now.n }
{
    let start = steps.starts[s as usize];
    let end = steps.starts[s as usize + 1];
    let middle = start + (end - start) / 2;
    if middle < end {
        ratio(costs, s, steps.to[middle as usize])
    } else {
        None
    }
}

/// The ratios between the ends of a bracket, and its upper end, in rising order.
pub fn ratios_between(
    alloc: Global,
    costs: &Costs,
    steps: &WeakSteps,
    bracket: &Bracket,
) -> Result<Vec<Ratio>, NoMemory>
    requires { AreWeakSteps costs.now.n costs.now.n (cost_at costs.now)
        steps.now.starts.items steps.now.to.items }
    ensures between { IfOk result (λ ratios.
        AreBetween costs.now.n (cost_at costs.now) bracket.now ratios.items) }
    ensures rise { IfOk result (λ ratios. Rise ratios.items) }
    ensures small { IfOk result (λ ratios. length ratios.items < 2 ^ 32) }
{
    let mut ratios = all_between(alloc, costs, steps, bracket)?;
    ratios.sort_unstable();
    Ok(ratios)
}

/// The ratios between the ends of a bracket, and its upper end, in the order of the observations.
fn all_between(
    alloc: Global,
    costs: &Costs,
    steps: &WeakSteps,
    bracket: &Bracket,
) -> Result<Vec<Ratio>, NoMemory>
    requires { AreWeakSteps costs.now.n costs.now.n (cost_at costs.now)
        steps.now.starts.items steps.now.to.items }
    ensures between { IfOk result (λ ratios.
        AreBetween costs.now.n (cost_at costs.now) bracket.now ratios.items) }
    ensures small { IfOk result (λ ratios. length ratios.items < 2 ^ 32) }
{
    let mut ratios = Vec::new(alloc);
    ratios.push(bracket.high)?;
    for s in 0..costs.n() {
        add_between(costs, steps, bracket, s, &mut ratios)?;
    }
    Ok(ratios)
}

/// Adds the ratios of the steps from `s` that are between the ends of a bracket.
fn add_between(
    costs: &Costs,
    steps: &WeakSteps,
    bracket: &Bracket,
    s: u32,
    ratios: &mut Vec<Ratio>,
) -> Result<(), NoMemory>
    requires steps { AreWeakSteps costs.now.n costs.now.n (cost_at costs.now)
        steps.now.starts.items steps.now.to.items }
    requires from { s < costs.now.n }
    ensures { OnOk result (AddsBetween (cost_at costs.now) bracket.now steps.now.to.items s
        (slice_index steps.now.starts.items s) (slice_index steps.now.starts.items (s + 1))
        ratios.old.items ratios.new.items) }
{
    for place in steps.starts[s as usize]..steps.starts[s as usize + 1] {
        if let Some(ratio) = ratio_between(costs, bracket, s, steps.to[place as usize]) {
            ratios.push(ratio)?;
        }
    }
    Ok(())
}

/// The ratio of `s` and `t`, where it is between the ends of a bracket.
fn ratio_between(costs: &Costs, bracket: &Bracket, s: u32, t: u32) -> Option<Ratio>
    requires from { s < costs.now.n }
    requires to { t < costs.now.n }
    ensures some { IfSome result (λ r.
        (r.num ≡ cost_at costs.now s t) × (r.den ≡ cost_at costs.now s s)) }
    ensures none { IfNone result
        (¬ IsBetween bracket.now (cost_at costs.now s t) (cost_at costs.now s s)) }
{
    let ratio = ratio(costs, s, t)?;
    if bracket.has_within(&ratio) {
        Some(ratio)
    } else {
        None
    }
}

/// What the bundle of `t` costs at the prices of `s`, over what was spent at `s`, where it is at most 1.
fn ratio(costs: &Costs, s: u32, t: u32) -> Option<Ratio>
    requires from { s < costs.now.n }
    requires to { t < costs.now.n }
    ensures some { IfSome result (λ r.
        (r.num ≡ cost_at costs.now s t) × (r.den ≡ cost_at costs.now s s)) }
    ensures none { IfNone result (cost_at costs.now s s < cost_at costs.now s t) }
{
    let num = costs.cost(s, t);
    let den = costs.cost(s, s);
    if num <= den {
        Some(Ratio { num, den })
    } else {
        None
    }
}
