//! The check of evidence on the homothetic level.
ghost use Rattle.std.specs.Prelude.{◌≡◌, ◌*◌, ◌<◌, ◌≤◌, ◌↔◌, ◌^◌, ℕ, IfOk, IsTrue, length};
ghost use Rattle.std.specs.Prelude.{slice_index};
ghost use Rattle.rp_check_walk_levels.specs.HomotheticLevelFailure.{BoundsProductsFrom, FactorsFail};
ghost use Rattle.rp_check_walk_levels.specs.HomotheticLevelFailure.{FitsFactor, HasMeanAtMost};
ghost use Rattle.rp_check_walk_levels.specs.HomotheticLevelFailure.{HomotheticLevelFails, MeanFails};
ghost use Rattle.rp_check_walk_levels.specs.InnerSums.{IsShort};
ghost use Rattle.rp_evidence.specs.Clauses.{FirstUnless};
ghost use Rattle.rp_fit.specs.HomotheticLevel.{ProvesHomotheticLevel};
ghost use Rattle.rp_table.specs.Cost.{cost_of};
ghost use Rattle.rp_table.specs.Tables.{records_of};

use crate::products::{PARTS, next_words, spent_words};
use rp_clauses::input::Input;
use rp_clauses::walk::check_closed_walk;
use rp_evidence::{Failure, Reason, fails};
use rp_fit::HomotheticLevelPart;
use rp_many_words::is_at_most;
use rp_num::cmp_products;
use std::cmp::Ordering;

/// The greatest value.
const FACTOR_WIDTH: u64 = 1 << 60;

/// Checks evidence on the level at which the homothetic test holds: accepted, it is between the two bounds.
pub fn check_homothetic_level(input: &Input<'_>, part: &HomotheticLevelPart) -> Result<(), Failure>
    ensures first { HomotheticLevelFails (records_of input.now.table.now)
        (cost_of input.now.table.now) part.now result }
    ensures proves { IfOk result (λ done. ProvesHomotheticLevel (records_of input.now.table.now)
        (cost_of input.now.table.now) part.now) }
{
    check_clauses(input, part)
}

/// Checks the clauses on the level at which the homothetic test holds, one after the other.
fn check_clauses(input: &Input<'_>, part: &HomotheticLevelPart) -> Result<(), Failure>
    ensures { HomotheticLevelFails (records_of input.now.table.now)
        (cost_of input.now.table.now) part.now result }
{
    if part.high > PARTS {
        return fails(Reason::Number, 0);
    }
    check_mean_of(input, part)?;
    check_factors_of(input, part)
}

/// Checks the walk of a part.
fn check_mean_of(input: &Input<'_>, part: &HomotheticLevelPart) -> Result<(), Failure>
    requires { part.now.high ≤ 2 ^ 40 }
    ensures { MeanFails (records_of input.now.table.now) (cost_of input.now.table.now)
        part.now.high part.now.walk result }
{
    check_mean(input, part.high, part.walk.as_slice())
}

/// Checks the values of a part.
fn check_factors_of(input: &Input<'_>, part: &HomotheticLevelPart) -> Result<(), Failure>
    ensures { FactorsFail (records_of input.now.table.now) (cost_of input.now.table.now)
        part.now.low part.now.values result }
{
    check_factors(input, part.low, part.values.as_slice())
}

/// Checks that a walk is closed, and that its geometric mean is at most `high` over 2^40.
fn check_mean(input: &Input<'_>, high: u64, walk: &[u32]) -> Result<(), Failure>
    requires { high ≤ 2 ^ 40 }
    ensures { MeanFails (records_of input.now.table.now) (cost_of input.now.table.now)
        high walk.now result }
{
    if walk.len() > input.n() as usize + 1 {
        return fails(Reason::Shape, 1);
    }
    check_closed_walk(input, walk)?;
    if !has_mean_at_most(input, high, walk) {
        return fails(Reason::Bound, 0);
    }
    Ok(())
}

/// Whether the geometric mean of a walk is at most `high` over 2^40, by exact products: no root is taken.
fn has_mean_at_most(input: &Input<'_>, high: u64, walk: &[u32]) -> bool
    requires short { IsShort (records_of input.now.table.now) walk.now }
    requires high { high ≤ 2 ^ 40 }
    ensures { IsTrue result
        ↔ HasMeanAtMost (cost_of input.now.table.now) high walk.now }
{
    let next = next_words(input, walk);
    let spent = spent_words(input, high, walk);
    is_at_most(&next, &spent)
}

/// Checks values: one for each observation, positive and within their width, and each bounds the steps from it.
fn check_factors(input: &Input<'_>, low: u64, values: &[u64]) -> Result<(), Failure>
    ensures { FactorsFail (records_of input.now.table.now) (cost_of input.now.table.now)
        low values.now result }
{
    let n = input.n();
    if values.len() != n as usize {
        return fails(Reason::Shape, 2);
    }
    check_widths(values)?;
    for s in 0..n {
        if !bounds_products_from(input, low, values, s) {
            return fails(Reason::Order, s as usize + 1);
        }
    }
    Ok(())
}

/// Checks that each value is positive and within its width.
fn check_widths(values: &[u64]) -> Result<(), Failure>
    ensures { FirstUnless (length values.now) (λ s. FitsFactor (slice_index values.now s))
        Reason.Number result }
{
    for (s, value) in values.iter().enumerate() {
        if *value == 0 || *value > FACTOR_WIDTH {
            return fails(Reason::Number, s + 1);
        }
    }
    Ok(())
}

/// Whether the value of `s` bounds every step from it.
fn bounds_products_from(input: &Input<'_>, low: u64, values: &[u64], s: u32) -> bool
    requires from { s < records_of input.now.table.now }
    requires one_each { length values.now ≡ records_of input.now.table.now }
    ensures { IsTrue result ↔ BoundsProductsFrom (records_of input.now.table.now)
        (cost_of input.now.table.now) low values.now s }
{
    for t in 0..input.n() {
        if !bounds_product(input, low, values, s, t) {
            return false;
        }
    }
    true
}

/// Whether the value of `s` bounds the step to `t`.
fn bounds_product(input: &Input<'_>, low: u64, values: &[u64], s: u32, t: u32) -> bool
    requires from { s < records_of input.now.table.now }
    requires to { t < records_of input.now.table.now }
    requires one_each { length values.now ≡ records_of input.now.table.now }
    ensures { IsTrue result ↔ ((slice_index values.now t * low) * cost_of input.now.table.now s s
        ≤ (slice_index values.now s * cost_of input.now.table.now s t) * 2 ^ 40) }
{
    let spent = input.cost(s, s);
    let next = input.cost(s, t);
    let here = product(values[s as usize], next);
    let there = product(values[t as usize], low);
    is_product_at_most(there, spent, here, PARTS)
}

/// The product of two numbers.
fn product(a: u64, b: u64) -> u128
    ensures { result ≡ a * b }
{
    u128::from(a) * u128::from(b)
}

/// Whether one product is at most another.
fn is_product_at_most(a: u128, b: u64, c: u128, d: u64) -> bool
    ensures { IsTrue result ↔ (a * b ≤ c * d) }
{
    cmp_products(a, u128::from(b), c, u128::from(d)) != Ordering::Greater
}
