//! The clauses of the homothetic test.
ghost use Rattle.std.specs.Prelude.{◌≡◌, ◌+◌, ◌*◌, ◌-◌, ◌<◌, ◌≤◌, ℕ, IfOk, IsErr, IsTrue};
ghost use Rattle.std.specs.Prelude.{◌↔◌, length};
ghost use Rattle.std.specs.Prelude.{slice_index};
ghost use Rattle.rp_clauses.specs.HomotheticFailure.{AllStepsFail, CycleFails, HomotheticFails};
ghost use Rattle.rp_clauses.specs.HomotheticFailure.{PositiveFails, ProductsFail, StepFails};
ghost use Rattle.rp_clauses.specs.HomotheticFailure.{StepsFail};
ghost use Rattle.rp_clauses.specs.HomotheticFailure.{ValuesFail};
ghost use Rattle.rp_num.specs.Fraction.{IsLowestTerms, PassesWidth};
ghost use Rattle.rp_table.specs.Cost.{cost_of};
ghost use Rattle.rp_table.specs.Tables.{records_of};

use crate::input::Input;
use crate::walk::check_closed_walk;
use rp_evidence::{Failure, Homothetic, Reason, fails};
use rp_num::{Frac, Wide};
use std::cmp::Ordering;

/// A fraction taken on from `t` to `s`: times c(t,s)/c(t,t).
fn taken_on(input: &Input<'_>, value: Frac, t: u32, s: u32) -> Result<Frac, Wide>
    requires from { t < records_of input.now.table.now }
    requires to { s < records_of input.now.table.now }
    ensures product { IfOk result (λ p. let c = cost_of input.now.table.now in
        IsLowestTerms (value.num * c t s) (value.den * c t t) p) }
    ensures wide { IsErr result ↔ (let c = cost_of input.now.table.now in
        PassesWidth (value.num * c t s) (value.den * c t t)) }
    ensures fraction { 1 ≤ value.den }
    ensures own { 1 ≤ cost_of input.now.table.now t t }
{
    prove!(value.den() > 0);
    value.times(input.cost(t, s), input.cost(t, t))
}

/// Whether a fraction is below another.
fn is_below(a: Frac, b: Frac) -> bool
    ensures { IsTrue result ↔ (a.num * b.den < b.num * a.den) }
{
    a.cmp(b) == Ordering::Less
}

/// Checks the step from `t` to `s`: what the value of `t` comes to is not too wide, and not below the value of `s`.
fn check_step(input: &Input<'_>, values: &[Frac], t: u32, s: u32) -> Result<(), Failure>
    requires one_each { length values.now ≡ records_of input.now.table.now }
    requires from { t < records_of input.now.table.now }
    requires to { s < records_of input.now.table.now }
    ensures { StepFails (cost_of input.now.table.now) values.now t s result }
{
    match taken_on(input, values[t as usize], t, s) {
        Ok(product) => {
            if is_below(product, values[s as usize]) {
                return fails(Reason::Order, t as usize + 1);
            }
            Ok(())
        }
        Err(_) => fails(Reason::Wide, t as usize + 1),
    }
}

/// Checks the steps from `t`, in order.
fn check_steps_from(input: &Input<'_>, values: &[Frac], t: u32) -> Result<(), Failure>
    requires one_each { length values.now ≡ records_of input.now.table.now }
    requires from { t < records_of input.now.table.now }
    ensures { StepsFail (records_of input.now.table.now) (cost_of input.now.table.now)
        values.now t result }
{
    for s in 0..input.n() {
        check_step(input, values, t, s)?;
    }
    Ok(())
}

/// Checks that no value is 0.
fn check_positive(values: &[Frac]) -> Result<(), Failure>
    ensures { PositiveFails values.now result }
{
    for (s, value) in values.iter().enumerate() {
        if value.num() == 0 {
            return fails(Reason::Number, s + 1);
        }
    }
    Ok(())
}

/// Checks the steps from every observation, in order.
fn check_all_steps(input: &Input<'_>, values: &[Frac]) -> Result<(), Failure>
    requires { length values.now ≡ records_of input.now.table.now }
    ensures { AllStepsFail (records_of input.now.table.now) (cost_of input.now.table.now)
        values.now result }
{
    for t in 0..input.n() {
        check_steps_from(input, values, t)?;
    }
    Ok(())
}

/// Checks values: one for each observation, none of them 0, and every step from each.
fn check_values(input: &Input<'_>, values: &[Frac]) -> Result<(), Failure>
    ensures { ValuesFail (records_of input.now.table.now) (cost_of input.now.table.now)
        values.now result }
{
    if values.len() != input.n() as usize {
        return fails(Reason::Shape, 0);
    }
    check_positive(values)?;
    check_all_steps(input, values)
}

/// Checks the products along a walk from the start: none is too wide, and the last one is below the start.
fn check_products(input: &Input<'_>, start: Frac, walk: &[u32]) -> Result<(), Failure>
    requires some { 0 < length walk.now }
    requires observed { (k : ℕ) → k < length walk.now
        → slice_index walk.now k < records_of input.now.table.now }
    ensures { ProductsFail (cost_of input.now.table.now) start walk.now result }
{
    prove!(start.den() > 0);
    let mut product = start;
    for k in 0..walk.len() - 1 {
        match taken_on(input, product, walk[k], walk[k + 1]) {
            Ok(taken) => product = taken,
            Err(_) => return fails(Reason::Wide, k + 1),
        }
    }
    if !is_below(product, start) {
        return fails(Reason::NotLess, 0);
    }
    Ok(())
}

/// Checks a start and a closed walk along which it is multiplied below itself.
fn check_cycle(input: &Input<'_>, start: Frac, walk: &[u32]) -> Result<(), Failure>
    ensures { CycleFails (records_of input.now.table.now) (cost_of input.now.table.now)
        start walk.now result }
{
    if start.num() == 0 {
        return fails(Reason::Number, 0);
    }
    check_closed_walk(input, walk)?;
    check_products(input, start, walk)
}

/// Checks evidence for the homothetic test (Varian 1983).
pub fn check_homothetic(input: &Input<'_>, evidence: &Homothetic) -> Result<(), Failure>
    ensures { HomotheticFails (records_of input.now.table.now) (cost_of input.now.table.now)
        evidence.now result }
{
    match evidence {
        Homothetic::Values(values) => check_values(input, values.as_slice()),
        Homothetic::Cycle { start, steps } => check_cycle(input, *start, steps.as_slice()),
        Homothetic::Withheld { .. } => Ok(()),
    }
}
