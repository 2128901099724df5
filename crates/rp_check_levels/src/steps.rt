//! The check of evidence on the least cost of steps.
ghost use Rattle.std.specs.Prelude.{◌≡◌, ◌<◌, ◌≤◌, ◌↔◌, ◌^◌, IfOk, IsTrue, Ok, [], false, length};
ghost use Rattle.std.specs.Prelude.{if◌then◌else◌, slice_index, slice_index_or};
ghost use Rattle.rp_check_levels.specs.StepsFailure.{AreStepsFrom, FallsFrom, IsStepAt};
ghost use Rattle.rp_check_levels.specs.StepsFailure.{StepsFail, TakenFails};
ghost use Rattle.rp_check_levels.specs.WalksFailure.{LoadsFail, WalksFail};
ghost use Rattle.rp_evidence.specs.Clauses.{FirstUnless, Unless};
ghost use Rattle.rp_evidence.specs.Preference.{IsStrict};
ghost use Rattle.rp_fit.specs.Steps.{step_cost, taken_cost};
ghost use Rattle.rp_fit.specs.StepsEvidence.{ProvesSteps, is_taken};
ghost use Rattle.rp_table.specs.Cost.{cost_of};
ghost use Rattle.rp_table.specs.Sums.{sum_below};
ghost use Rattle.rp_table.specs.Tables.{records_of};

use crate::loads::check_loads;
use crate::measure::Measure;
use crate::walks::check_walks;
use rp_check_walks::is_strict;
use rp_clauses::input::Input;
use rp_evidence::{Failure, Reason, fails};
use rp_fit::StepsPart;
use rp_limits::table::RECORDS;
use rp_num::Seq;

/// Checks evidence on the least cost of strict steps whose removal leaves no closed walk of them.
pub fn check_steps(input: &Input<'_>, part: &StepsPart) -> Result<(), Failure>
    ensures first { StepsFail (records_of input.now.table.now) (cost_of input.now.table.now)
        part.now result }
    ensures proves { IfOk result (λ done. ProvesSteps (records_of input.now.table.now)
        (cost_of input.now.table.now) part.now) }
{
    check_clauses(input, part)
}

/// Checks the clauses on the least cost of strict steps, one after the other.
fn check_clauses(input: &Input<'_>, part: &StepsPart) -> Result<(), Failure>
    ensures { StepsFail (records_of input.now.table.now) (cost_of input.now.table.now)
        part.now result }
{
    if part.den == 0 {
        return fails(Reason::Number, 0);
    }
    check_taken_of(input, part)?;
    check_cost_of(input, part)?;
    check_walks_of(input, part)?;
    check_loads_of(input, part)
}

/// Checks the steps of a part that are taken away, and its ranks.
fn check_taken_of(input: &Input<'_>, part: &StepsPart) -> Result<(), Failure>
    ensures { TakenFails (records_of input.now.table.now) (cost_of input.now.table.now)
        part.now.taken part.now.ranks result }
{
    check_taken(input, part.taken.as_slice(), part.ranks.as_slice())
}

/// Checks that the steps of a part that are taken away cost so much.
fn check_cost_of(input: &Input<'_>, part: &StepsPart) -> Result<(), Failure>
    requires { length part.now.taken ≡ records_of input.now.table.now }
    ensures { Unless (taken_cost (records_of input.now.table.now) (cost_of input.now.table.now)
        (is_taken part.now.taken) ≡ part.now.cost) Reason.Bound 0 result }
{
    check_cost(input, part.taken.as_slice(), part.cost)
}

/// Checks the walks of a part.
fn check_walks_of(input: &Input<'_>, part: &StepsPart) -> Result<(), Failure>
    ensures { WalksFail (records_of input.now.table.now) (cost_of input.now.table.now)
        part.now.walks result }
{
    check_walks(input, part.walks.as_slice())
}

/// Checks what the walks of a part load.
fn check_loads_of(input: &Input<'_>, part: &StepsPart) -> Result<(), Failure>
    requires { WalksFail (records_of input.now.table.now) (cost_of input.now.table.now)
        part.now.walks (Ok tt) }
    ensures { LoadsFail (records_of input.now.table.now) (cost_of input.now.table.now)
        Measure.Steps part.now.den part.now.walks result }
{
    check_loads(input, Measure::Steps, part.den, part.walks.as_slice())
}

/// Checks the steps that are taken away, and the ranks.
fn check_taken(input: &Input<'_>, taken: &[Seq<u32>], ranks: &[u32]) -> Result<(), Failure>
    ensures { TakenFails (records_of input.now.table.now) (cost_of input.now.table.now)
        taken.now ranks.now result }
{
    if taken.len() != input.n() as usize {
        return fails(Reason::Shape, 1);
    }
    if ranks.len() != input.n() as usize {
        return fails(Reason::Shape, 2);
    }
    check_rows(input, taken)?;
    check_left(input, taken, ranks)
}

/// Checks that the lists are of observations to which strict steps lead, in increasing order.
fn check_rows(input: &Input<'_>, taken: &[Seq<u32>]) -> Result<(), Failure>
    requires { length taken.now ≡ records_of input.now.table.now }
    ensures { FirstUnless (records_of input.now.table.now)
        (λ s. AreStepsFrom (records_of input.now.table.now) (cost_of input.now.table.now) s
        (slice_index_or taken.now s [])) Reason.Set result }
{
    for s in 0..input.n() {
        if !is_row(input, taken, s) {
            return fails(Reason::Set, s as usize + 1);
        }
    }
    Ok(())
}

/// Whether the list of `s` is of observations to which strict steps of `s` lead, in increasing order.
fn is_row(input: &Input<'_>, taken: &[Seq<u32>], s: u32) -> bool
    requires lists { s < length taken.now }
    requires from { s < records_of input.now.table.now }
    ensures { IsTrue result ↔ AreStepsFrom (records_of input.now.table.now)
        (cost_of input.now.table.now) s (slice_index_or taken.now s []) }
{
    are_steps_from(input, s, row_of(taken, s))
}

/// The list of `s`.
fn row_of(taken: &[Seq<u32>], s: u32) -> &[u32]
    requires { s < length taken.now }
    ensures { result.now ≡ slice_index_or taken.now s [] }
{
    taken[s as usize].as_slice()
}

/// Whether these are observations to which strict steps of `s` lead, in increasing order.
fn are_steps_from(input: &Input<'_>, s: u32, row: &[u32]) -> bool
    requires { s < records_of input.now.table.now }
    ensures { IsTrue result ↔ AreStepsFrom (records_of input.now.table.now)
        (cost_of input.now.table.now) s row.now }
{
    for k in 0..row.len() {
        if !is_step_at(input, s, row, k) {
            return false;
        }
    }
    true
}

/// Whether entry `k` is an observation to which a strict step of `s` leads, and above the entry before it.
fn is_step_at(input: &Input<'_>, s: u32, row: &[u32], k: usize) -> bool
    requires from { s < records_of input.now.table.now }
    requires place { k < length row.now }
    ensures { IsTrue result ↔ IsStepAt (records_of input.now.table.now)
        (cost_of input.now.table.now) s row.now k }
{
    row[k] < input.n() && is_strict(input, s, row[k]) && (k == 0 || row[k - 1] < row[k])
}

/// Whether the step from `s` to `t` is taken away.
fn is_taken(taken: &[Seq<u32>], s: u32, t: u32) -> bool
    requires { s < length taken.now }
    ensures { result ≡ is_taken taken.now s t }
{
    taken[s as usize].as_slice().contains(&t)
}

/// Checks that ranks fall along the strict steps that are left.
fn check_left(input: &Input<'_>, taken: &[Seq<u32>], ranks: &[u32]) -> Result<(), Failure>
    requires lists { length taken.now ≡ records_of input.now.table.now }
    requires ranks { length ranks.now ≡ records_of input.now.table.now }
    ensures { FirstUnless (records_of input.now.table.now) (FallsFrom (records_of input.now.table.now)
        (cost_of input.now.table.now) taken.now ranks.now) Reason.Order result }
{
    for s in 0..input.n() {
        if !falls_from(input, taken, ranks, s) {
            return fails(Reason::Order, s as usize + 1);
        }
    }
    Ok(())
}

/// Whether the rank falls along each strict step of `s` that is left.
fn falls_from(input: &Input<'_>, taken: &[Seq<u32>], ranks: &[u32], s: u32) -> bool
    requires lists { length taken.now ≡ records_of input.now.table.now }
    requires ranks { length ranks.now ≡ records_of input.now.table.now }
    requires from { s < records_of input.now.table.now }
    ensures { IsTrue result ↔ FallsFrom (records_of input.now.table.now)
        (cost_of input.now.table.now) taken.now ranks.now s }
{
    for t in 0..input.n() {
        if !falls_along(input, taken, ranks, s, t) {
            return false;
        }
    }
    true
}

/// Whether the rank falls from `s` to `t`, where a strict step is left.
fn falls_along(input: &Input<'_>, taken: &[Seq<u32>], ranks: &[u32], s: u32, t: u32) -> bool
    requires lists { length taken.now ≡ records_of input.now.table.now }
    requires ranks { length ranks.now ≡ records_of input.now.table.now }
    requires from { s < records_of input.now.table.now }
    requires to { t < records_of input.now.table.now }
    ensures { IsTrue result ↔ (IsStrict (cost_of input.now.table.now) s t
        → is_taken taken.now s t ≡ false → slice_index ranks.now t < slice_index ranks.now s) }
{
    ranks[t as usize] < ranks[s as usize] || !is_strict(input, s, t) || is_taken(taken, s, t)
}

/// Checks that the steps that are taken away cost so much.
fn check_cost(input: &Input<'_>, taken: &[Seq<u32>], cost: u128) -> Result<(), Failure>
    requires { length taken.now ≡ records_of input.now.table.now }
    ensures { Unless (taken_cost (records_of input.now.table.now) (cost_of input.now.table.now)
        (is_taken taken.now) ≡ cost) Reason.Bound 0 result }
{
    if cost_of_taken(input, taken) != cost {
        return fails(Reason::Bound, 0);
    }
    Ok(())
}

/// What the steps cost that are taken away.
pub fn cost_of_taken(input: &Input<'_>, taken: &[Seq<u32>]) -> u128
    requires { length taken.now ≡ records_of input.now.table.now }
    ensures { result ≡ taken_cost (records_of input.now.table.now) (cost_of input.now.table.now)
        (is_taken taken.now) }
{
    let n = input.n();
    let mut sum = 0;
    for s in 0..n {
        sum += cost_from(input, taken, s);
    }
    sum
}

/// What the steps from `s` cost that are taken away.
fn cost_from(input: &Input<'_>, taken: &[Seq<u32>], s: u32) -> u128
    requires lists { length taken.now ≡ records_of input.now.table.now }
    requires from { s < records_of input.now.table.now }
    ensures value { result ≡ sum_below (records_of input.now.table.now)
        (λ t. if is_taken taken.now s t then step_cost (cost_of input.now.table.now) s t else 0) }
    ensures small { result ≤ 2 ^ 60 }
{
    let n = input.n();
    prove!(n <= RECORDS);
    let mut sum = 0;
    for t in 0..n {
        sum += cost_along(input, taken, s, t);
    }
    sum
}

/// What the step from `s` to `t` costs where it is taken away, else 0.
fn cost_along(input: &Input<'_>, taken: &[Seq<u32>], s: u32, t: u32) -> u128
    requires lists { length taken.now ≡ records_of input.now.table.now }
    requires from { s < records_of input.now.table.now }
    requires to { t < records_of input.now.table.now }
    ensures value { result
        ≡ (if is_taken taken.now s t then step_cost (cost_of input.now.table.now) s t else 0) }
    ensures small { result ≤ 2 ^ 51 }
{
    cost_where(is_taken(taken, s, t), step_cost(input, s, t))
}

/// What it costs to take away the step from `s` to `t`.
fn step_cost(input: &Input<'_>, s: u32, t: u32) -> u64
    requires from { s < records_of input.now.table.now }
    requires to { t < records_of input.now.table.now }
    ensures value { result ≡ step_cost (cost_of input.now.table.now) s t }
    ensures small { result ≤ 2 ^ 51 }
{
    input.cost(s, s).saturating_sub(input.cost(s, t))
}

/// The cost where the step is taken away, else 0.
fn cost_where(there: bool, cost: u64) -> u128
    requires { cost ≤ 2 ^ 51 }
    ensures value { result ≡ (if there then cost else 0) }
    ensures small { result ≤ 2 ^ 51 }
{
    if there { u128::from(cost) } else { 0 }
}
