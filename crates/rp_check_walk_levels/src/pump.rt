//! The check of evidence on the money pump.
ghost use Rattle.std.specs.Prelude.{◌≡◌, ◌+◌, ◌*◌, ◌<◌, ◌≤◌, ◌↔◌, ◌+ℤ◌, ◌-ℤ◌, ◌≤ℤ◌, ◌^◌, ℕ, Ok, pos};
ghost use Rattle.std.specs.Prelude.{IfOk, IsTrue, length};
ghost use Rattle.std.specs.Int.RustNames.{unsigned_abs};
ghost use Rattle.rp_check_walk_levels.specs.InnerSums.{IsShort};
ghost use Rattle.rp_check_walk_levels.specs.PumpFailure.{CycleFails, PumpFails, PumpValuesFail};
ghost use Rattle.rp_clauses.specs.WalkFailure.{WeakStepsFail};
ghost use Rattle.rp_evidence.specs.Clauses.{FirstUnless};
ghost use Rattle.rp_evidence.specs.Efficiency.{FailsGarp};
ghost use Rattle.rp_evidence.specs.Preference.{IsWeak};
ghost use Rattle.rp_fit.specs.MoneyPump.{HasPumpRatio, IsPumpIndex};
ghost use Rattle.rp_fit.specs.PumpEvidence.{BoundsFrom, BoundsStep, FitsPumpValue, PumpHolds};
ghost use Rattle.rp_fit.specs.PumpEvidence.{value_at};
ghost use Rattle.rp_fit.specs.PumpTotals.{excess};
ghost use Rattle.rp_table.specs.Cost.{cost_of};
ghost use Rattle.rp_table.specs.Tables.{records_of};

use crate::sums::{next_along, spent_along};
use rp_check_walks::is_weak;
use rp_clauses::input::Input;
use rp_clauses::walk::check_closed_walk;
use rp_evidence::{Failure, Reason, fails};
use rp_fit::PumpPart;

/// The greatest part of a ratio.
const RATIO_WIDTH: u64 = 1 << 60;

/// The greatest value in absolute value.
const VALUE_WIDTH: i128 = 1 << 121;

/// Checks evidence on the money pump: accepted, `num/den` is the greatest ratio of all closed walks of weak steps.
pub fn check_pump(input: &Input<'_>, part: &PumpPart) -> Result<(), Failure>
    ensures first { PumpFails (records_of input.now.table.now) (cost_of input.now.table.now)
        part.now result }
    ensures exact { (result ≡ Ok tt) ↔ PumpHolds (records_of input.now.table.now)
        (cost_of input.now.table.now) part.now }
    ensures proves { IfOk result (λ done. IsPumpIndex (records_of input.now.table.now)
        (cost_of input.now.table.now) part.now.num part.now.den) }
    ensures garp { IfOk result (λ done. (0 < part.now.num)
        ↔ FailsGarp (records_of input.now.table.now) (cost_of input.now.table.now)) }
{
    prove!(input.costs.n() > 0);
    check_clauses(input, part)
}

/// Checks the clauses on the money pump, one after the other.
fn check_clauses(input: &Input<'_>, part: &PumpPart) -> Result<(), Failure>
    ensures { PumpFails (records_of input.now.table.now) (cost_of input.now.table.now)
        part.now result }
{
    if part.den == 0 {
        return fails(Reason::Number, 0);
    }
    if part.num > RATIO_WIDTH || part.den > RATIO_WIDTH {
        return fails(Reason::Wide, 0);
    }
    check_cycle_of(input, part)?;
    check_values_of(input, part)
}

/// Checks the walk of a part.
fn check_cycle_of(input: &Input<'_>, part: &PumpPart) -> Result<(), Failure>
    ensures { CycleFails (records_of input.now.table.now) (cost_of input.now.table.now)
        part.now.num part.now.den part.now.cycle result }
{
    check_cycle(input, part.num, part.den, part.cycle.as_slice())
}

/// Checks the values of a part.
fn check_values_of(input: &Input<'_>, part: &PumpPart) -> Result<(), Failure>
    ensures { PumpValuesFail (records_of input.now.table.now) (cost_of input.now.table.now)
        part.now.num part.now.den part.now.values result }
{
    check_values(input, part.num, part.den, part.values.as_slice())
}

/// Checks that a walk is closed, that its steps are weak, and that its gains are the part `num/den` of what was spent.
fn check_cycle(input: &Input<'_>, num: u64, den: u64, walk: &[u32]) -> Result<(), Failure>
    ensures { CycleFails (records_of input.now.table.now) (cost_of input.now.table.now)
        num den walk.now result }
{
    if walk.len() > input.n() as usize + 1 {
        return fails(Reason::Shape, 1);
    }
    check_closed_walk(input, walk)?;
    check_weak_steps(input, walk)?;
    if !has_pump_ratio(input, num, den, walk) {
        return fails(Reason::Bound, 0);
    }
    Ok(())
}

/// Checks that each step is weak.
fn check_weak_steps(input: &Input<'_>, walk: &[u32]) -> Result<(), Failure>
    requires { IsShort (records_of input.now.table.now) walk.now }
    ensures { WeakStepsFail (IsWeak (cost_of input.now.table.now)) walk.now result }
{
    for k in 0..walk.len() - 1 {
        if !is_weak(input, walk[k], walk[k + 1]) {
            return fails(Reason::NotWeak, k + 1);
        }
    }
    Ok(())
}

/// Whether the gains along a walk are the part `num/den` of what was spent.
fn has_pump_ratio(input: &Input<'_>, num: u64, den: u64, walk: &[u32]) -> bool
    requires { IsShort (records_of input.now.table.now) walk.now }
    ensures { IsTrue result ↔ HasPumpRatio (cost_of input.now.table.now) num den walk.now }
{
    is_part(num, den, spent_along(input, walk), next_along(input, walk))
}

/// Whether what was spent, less what the next bundles cost, is the part `num/den` of it.
fn is_part(num: u64, den: u64, spent: u64, next: u64) -> bool
    requires spent { spent ≤ 2 ^ 60 }
    requires next { next ≤ 2 ^ 60 }
    ensures { IsTrue result ↔ (spent * den ≡ num * spent + next * den) }
{
    let whole = u128::from(spent) * u128::from(den);
    whole == u128::from(num) * u128::from(spent) + u128::from(next) * u128::from(den)
}

/// Checks values: one for each observation, within their width, and each bounds the weak steps from it.
fn check_values(input: &Input<'_>, num: u64, den: u64, values: &[i128]) -> Result<(), Failure>
    ensures { PumpValuesFail (records_of input.now.table.now) (cost_of input.now.table.now)
        num den values.now result }
{
    let n = input.n();
    if values.len() != n as usize {
        return fails(Reason::Shape, 2);
    }
    check_widths(values)?;
    for s in 0..n {
        if !bounds_from(input, num, den, values, s) {
            return fails(Reason::Order, s as usize + 1);
        }
    }
    Ok(())
}

/// Checks that each value is within its width.
fn check_widths(values: &[i128]) -> Result<(), Failure>
    ensures { FirstUnless (length values.now) (λ s. FitsPumpValue (value_at values.now s))
        Reason.Number result }
{
    for (s, value) in values.iter().enumerate() {
        if *value < -VALUE_WIDTH || *value > VALUE_WIDTH {
            return fails(Reason::Number, s + 1);
        }
    }
    Ok(())
}

/// Whether the value of `s` bounds each weak step from it to another observation.
fn bounds_from(input: &Input<'_>, num: u64, den: u64, values: &[i128], s: u32) -> bool
    requires from { s < records_of input.now.table.now }
    requires one_each { length values.now ≡ records_of input.now.table.now }
    requires fits { (k : ℕ) → k < length values.now → FitsPumpValue (value_at values.now k) }
    ensures { IsTrue result ↔ BoundsFrom (records_of input.now.table.now)
        (cost_of input.now.table.now) num den values.now s }
{
    for t in 0..input.n() {
        if !bounds_step(input, num, den, values, s, t) {
            return false;
        }
    }
    true
}

/// Whether the value of `s` bounds the step to `t`, if this is another observation and the step is weak.
fn bounds_step(input: &Input<'_>, num: u64, den: u64, values: &[i128], s: u32, t: u32) -> bool
    requires from { s < records_of input.now.table.now }
    requires to { t < records_of input.now.table.now }
    requires one_each { length values.now ≡ records_of input.now.table.now }
    requires fits { (k : ℕ) → k < length values.now → FitsPumpValue (value_at values.now k) }
    ensures { IsTrue result
        ↔ BoundsStep (cost_of input.now.table.now) num den values.now s t }
{
    if s == t || !is_weak(input, s, t) {
        return true;
    }
    at_most(
        values[t as usize],
        allowed(input, num, den, values[s as usize], s, t),
    )
}

/// Whether a number is at most another.
fn at_most(a: i128, b: i128) -> bool
    ensures { IsTrue result ↔ (a ≤ℤ b) }
{
    a <= b
}

/// What a value of `s` allows `t` to have.
fn allowed(input: &Input<'_>, num: u64, den: u64, value: i128, s: u32, t: u32) -> i128
    requires from { s < records_of input.now.table.now }
    requires to { t < records_of input.now.table.now }
    requires fits { FitsPumpValue value }
    ensures { result ≡ value +ℤ excess (cost_of input.now.table.now) num den s t }
{
    value + excess(input, num, den, s, t)
}

/// The part `num/den` of what was spent at `s`, less the gain of a step to `t`, both times `den`.
fn excess(input: &Input<'_>, num: u64, den: u64, s: u32, t: u32) -> i128
    requires from { s < records_of input.now.table.now }
    requires to { t < records_of input.now.table.now }
    ensures value { result ≡ excess (cost_of input.now.table.now) num den s t }
    ensures small { unsigned_abs result ≤ 2 ^ 116 }
{
    let spent = input.cost(s, s);
    let left = product(num, spent) + product(den, input.cost(s, t));
    difference(left, product(den, spent))
}

/// The difference of two numbers of at most 116 bits.
fn difference(a: u128, b: u128) -> i128
    requires a_fits { a ≤ 2 ^ 116 }
    requires b_fits { b ≤ 2 ^ 116 }
    ensures value { result ≡ pos a -ℤ pos b }
    ensures small { unsigned_abs result ≤ 2 ^ 116 }
{
    a as i128 - b as i128
}

/// A part of a ratio times a cost.
fn product(part: u64, cost: u64) -> u128
    requires { cost < 2 ^ 51 }
    ensures value { result ≡ part * cost }
    ensures small { result < 2 ^ 115 }
{
    u128::from(part) * u128::from(cost)
}
