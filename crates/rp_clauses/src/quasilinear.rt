//! The clauses of the quasilinear test.
ghost use Rattle.std.specs.Prelude.{◌≡◌, ◌*◌, ◌<◌, ◌≤◌, ◌↔◌, ◌+ℤ◌, ◌^◌, ℕ};
ghost use Rattle.std.specs.Prelude.{IsTrue};
ghost use Rattle.std.specs.Prelude.{length, slice_index};
ghost use Rattle.std.specs.Int.RustNames.{unsigned_abs};
ghost use Rattle.rp_clauses.specs.QuasilinearFailure.{WidthsFail, BoundsAt, CycleFails};
ghost use Rattle.rp_clauses.specs.QuasilinearFailure.{FitsValue, QuasilinearFails, ValuesFail};
ghost use Rattle.rp_clauses.specs.QuasilinearFailure.{level_at};
ghost use Rattle.rp_evidence.specs.Quasilinear.{step_sum, walk_sum};
ghost use Rattle.rp_table.specs.Cost.{cost_of};
ghost use Rattle.rp_table.specs.Tables.{records_of};

use crate::input::Input;
use crate::walk::check_closed_walk;
use rp_evidence::{Failure, Quasi, Reason, fails};

/// The greatest value in absolute value.
const VALUE_WIDTH: i128 = 1 << 100;

/// A sum of fewer than 2^64 numbers of at most 2^51 each, and one more: it stays within 128 bits.
fn plus(sum: i128, added: i128) -> i128
    requires room { unsigned_abs sum ≤ 2 ^ 64 * 2 ^ 51 }
    requires small { unsigned_abs added ≤ 2 ^ 51 }
    ensures { result ≡ sum +ℤ added }
{
    sum + added
}

/// What a value of `t` allows `s` to have: U_t + c(t,s) - c(t,t).
fn allowed(input: &Input<'_>, value: i128, t: u32, s: u32) -> i128
    requires fits { FitsValue value }
    requires from { t < records_of input.now.table.now }
    requires to { s < records_of input.now.table.now }
    ensures { result ≡ value +ℤ step_sum (cost_of input.now.table.now) t s }
{
    plus(value, input.added(t, s))
}

/// Whether the value of `t` bounds every step from it.
fn bounds_steps(input: &Input<'_>, values: &[i128], t: u32) -> bool
    requires from { t < records_of input.now.table.now }
    requires one_each { length values.now ≡ records_of input.now.table.now }
    requires fits { FitsValue (level_at values.now t) }
    ensures { IsTrue result ↔ BoundsAt (records_of input.now.table.now)
        (cost_of input.now.table.now) values.now t }
{
    for s in 0..input.n() {
        if values[s as usize] > allowed(input, values[t as usize], t, s) {
            return false;
        }
    }
    true
}

/// Checks that each value is within its width.
fn check_widths(values: &[i128]) -> Result<(), Failure>
    ensures { WidthsFail values.now result }
{
    for (s, value) in values.iter().enumerate() {
        if *value < -VALUE_WIDTH || *value > VALUE_WIDTH {
            return fails(Reason::Number, s + 1);
        }
    }
    Ok(())
}

/// Checks values: one for each observation, within their width, and each bounds the steps from it.
fn check_values(input: &Input<'_>, values: &[i128]) -> Result<(), Failure>
    ensures { ValuesFail (records_of input.now.table.now) (cost_of input.now.table.now)
        values.now result }
{
    let n = input.n();
    if values.len() != n as usize {
        return fails(Reason::Shape, 0);
    }
    check_widths(values)?;
    for t in 0..n {
        if !bounds_steps(input, values, t) {
            return fails(Reason::Order, t as usize + 1);
        }
    }
    Ok(())
}

/// The sum over the steps of a walk.
fn sum_of_walk(input: &Input<'_>, walk: &[u32]) -> i128
    requires some { 0 < length walk.now }
    requires observed { (k : ℕ) → k < length walk.now
        → slice_index walk.now k < records_of input.now.table.now }
    ensures { result ≡ walk_sum (cost_of input.now.table.now) walk.now }
{
    let mut sum = 0;
    for k in 0..walk.len() - 1 {
        sum = plus(sum, input.added(walk[k], walk[k + 1]));
    }
    sum
}

/// Checks a closed walk with a negative sum.
fn check_cycle(input: &Input<'_>, walk: &[u32]) -> Result<(), Failure>
    ensures { CycleFails (records_of input.now.table.now) (cost_of input.now.table.now)
        walk.now result }
{
    check_closed_walk(input, walk)?;
    if sum_of_walk(input, walk) >= 0 {
        return fails(Reason::NotLess, 0);
    }
    Ok(())
}

/// Checks evidence for the quasilinear test (Brown and Calsamiglia 2007).
pub fn check_quasilinear(input: &Input<'_>, evidence: &Quasi) -> Result<(), Failure>
    ensures { QuasilinearFails (records_of input.now.table.now) (cost_of input.now.table.now)
        evidence.now result }
{
    match evidence {
        Quasi::Values(values) => check_values(input, values.as_slice()),
        Quasi::Cycle(walk) => check_cycle(input, walk.as_slice()),
    }
}
