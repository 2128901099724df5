//! The check of evidence on the quasilinear level.
ghost use Rattle.std.specs.Prelude.{◌≡◌, ◌+◌, ◌*◌, ◌<◌, ◌≤◌, ◌↔◌, ◌+ℤ◌, ◌^◌, ℕ, pos, IfOk, IsTrue};
ghost use Rattle.std.specs.Prelude.{length};
ghost use Rattle.std.specs.Int.RustNames.{unsigned_abs};
ghost use Rattle.rp_check_walk_levels.specs.InnerSums.{IsShort};
ghost use Rattle.rp_check_walk_levels.specs.QuasilinearLevelFailure.{BoundsFrom, FitsValue};
ghost use Rattle.rp_check_walk_levels.specs.QuasilinearLevelFailure.{QuasilinearLevelFails};
ghost use Rattle.rp_check_walk_levels.specs.QuasilinearLevelFailure.{RatioFails, ValuesFail};
ghost use Rattle.rp_check_walk_levels.specs.QuasilinearLevelFailure.{value_at};
ghost use Rattle.rp_evidence.specs.Clauses.{FirstUnless};
ghost use Rattle.rp_fit.specs.QuasilinearLevel.{IsQuasilinearLevel};
ghost use Rattle.rp_fit.specs.WalkSums.{next_sum, spent_sum};
ghost use Rattle.rp_table.specs.Cost.{cost_of};
ghost use Rattle.rp_table.specs.Tables.{records_of};

use crate::sums::{next_along, spent_along};
use rp_clauses::input::Input;
use rp_clauses::walk::check_closed_walk;
use rp_evidence::{Failure, Reason, fails};
use rp_fit::QuasilinearLevelPart;

/// The greatest value in absolute value.
const VALUE_WIDTH: i128 = 1 << 120;

/// Checks evidence on the level at which the quasilinear test holds: accepted, `num/den` is that level.
pub fn check_quasilinear_level(
    input: &Input<'_>,
    part: &QuasilinearLevelPart,
) -> Result<(), Failure>
    ensures first { QuasilinearLevelFails (records_of input.now.table.now)
        (cost_of input.now.table.now) part.now result }
    ensures proves { IfOk result (λ done. IsQuasilinearLevel (records_of input.now.table.now)
        (cost_of input.now.table.now) part.now.num part.now.den) }
{
    check_clauses(input, part)
}

/// Checks the clauses on the level at which the quasilinear test holds, one after the other.
fn check_clauses(input: &Input<'_>, part: &QuasilinearLevelPart) -> Result<(), Failure>
    ensures { QuasilinearLevelFails (records_of input.now.table.now)
        (cost_of input.now.table.now) part.now result }
{
    if part.den == 0 {
        return fails(Reason::Number, 0);
    }
    check_ratio_of(input, part)?;
    check_values_of(input, part)
}

/// Checks the walk of a part.
fn check_ratio_of(input: &Input<'_>, part: &QuasilinearLevelPart) -> Result<(), Failure>
    ensures { RatioFails (records_of input.now.table.now) (cost_of input.now.table.now)
        part.now.num part.now.den part.now.walk result }
{
    check_ratio(input, part.num, part.den, part.walk.as_slice())
}

/// Checks the values of a part.
fn check_values_of(input: &Input<'_>, part: &QuasilinearLevelPart) -> Result<(), Failure>
    ensures { ValuesFail (records_of input.now.table.now) (cost_of input.now.table.now)
        part.now.num part.now.den part.now.values result }
{
    check_values(input, part.num, part.den, part.values.as_slice())
}

/// Checks that a walk is closed, and that its next bundles cost the part `num/den` of what was spent.
fn check_ratio(input: &Input<'_>, num: u64, den: u64, walk: &[u32]) -> Result<(), Failure>
    ensures { RatioFails (records_of input.now.table.now) (cost_of input.now.table.now)
        num den walk.now result }
{
    if walk.len() > input.n() as usize + 1 {
        return fails(Reason::Shape, 1);
    }
    check_closed_walk(input, walk)?;
    if !has_ratio(input, num, den, walk) {
        return fails(Reason::Bound, 0);
    }
    Ok(())
}

/// Whether the next bundles of a walk cost the part `num/den` of what was spent.
fn has_ratio(input: &Input<'_>, num: u64, den: u64, walk: &[u32]) -> bool
    requires { IsShort (records_of input.now.table.now) walk.now }
    ensures { IsTrue result ↔ (num * spent_sum (cost_of input.now.table.now) walk.now
        ≡ den * next_sum (cost_of input.now.table.now) walk.now) }
{
    product(num, spent_along(input, walk)) == product(den, next_along(input, walk))
}

/// The product of two numbers.
fn product(part: u64, sum: u64) -> u128
    ensures { result ≡ part * sum }
{
    u128::from(part) * u128::from(sum)
}

/// Checks values: one for each observation, within their width, and each bounds the steps from it.
fn check_values(input: &Input<'_>, num: u64, den: u64, values: &[i128]) -> Result<(), Failure>
    ensures { ValuesFail (records_of input.now.table.now) (cost_of input.now.table.now)
        num den values.now result }
{
    let n = input.n();
    if values.len() != n as usize {
        return fails(Reason::Shape, 2);
    }
    check_widths(values)?;
    for s in 0..n {
        if !bounds_from(input, num, den, values, s) {
            return fails(Reason::Order, s as usize + 1);
        }
    }
    Ok(())
}

/// Checks that each value is within its width.
fn check_widths(values: &[i128]) -> Result<(), Failure>
    ensures { FirstUnless (length values.now) (λ s. FitsValue (value_at values.now s)) Reason.Number
        result }
{
    for (s, value) in values.iter().enumerate() {
        if *value < -VALUE_WIDTH || *value > VALUE_WIDTH {
            return fails(Reason::Number, s + 1);
        }
    }
    Ok(())
}

/// Whether the value of `s` bounds every step from it.
fn bounds_from(input: &Input<'_>, num: u64, den: u64, values: &[i128], s: u32) -> bool
    requires from { s < records_of input.now.table.now }
    requires one_each { length values.now ≡ records_of input.now.table.now }
    requires fits { (k : ℕ) → k < length values.now → FitsValue (value_at values.now k) }
    ensures { IsTrue result ↔ BoundsFrom (records_of input.now.table.now)
        (cost_of input.now.table.now) num den values.now s }
{
    for t in 0..input.n() {
        let here = raised(values[s as usize], den, input.cost(s, t));
        if raised(values[t as usize], num, input.cost(s, s)) > here {
            return false;
        }
    }
    true
}

/// A value, and a part times a cost.
fn raised(value: i128, part: u64, cost: u64) -> i128
    requires fits { FitsValue value }
    requires cost { cost < 2 ^ 51 }
    ensures { result ≡ value +ℤ pos (part * cost) }
{
    value + i128::from(part) * i128::from(cost)
}
