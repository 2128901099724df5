//! The utilities of a class of observations that reach each other.
ghost use Rattle.std.specs.Prelude.{◌≡◌, ◌<◌, ℕ, IfNone, IfSome, length, slice_index};
ghost use Rattle.rp_evidence.specs.StandardNumbers.{IsClassUtilityBy};
ghost use Rattle.rp_table.specs.Cost.{own_of};
ghost use Rattle.rp_afriat.specs.InnerFilling.{AreForEach, FitAbove, IsAllowed};
ghost use Rattle.rp_afriat.specs.InnerFilling.{IsClassSet, IsLeastOf, lesser_of, scaled_at};
ghost use Rattle.rp_afriat.specs.InnerFilling.{utility_of};

use crate::bounds::{bound, scaled};
use rp_table::Costs;

/// The first of n observations that is of a class.
pub fn first_of(n: u32, counts: &[u32], class: u32) -> Option<u32>
    requires { length counts.now ≡ n }
    ensures found { IfSome result (λ t. (t < n) × (slice_index counts.now t ≡ class)
        × ((s : ℕ) → s < t → ¬ (slice_index counts.now s ≡ class))) }
    ensures none { IfNone result ((s : ℕ) → s < n → ¬ (slice_index counts.now s ≡ class)) }
{
    for t in 0..n {
        if counts[t as usize] == class {
            return Some(t);
        }
    }
    None
}

/// The lesser of two numbers, where there are any.
fn lesser(a: Option<i128>, b: Option<i128>) -> Option<i128>
    ensures { result ≡ lesser_of a b }
{
    match (a, b) {
        (Some(x), Some(y)) => Some(x.min(y)),
        (Some(x), None) => Some(x),
        (None, other) => other,
    }
}

/// The least that an observation of a higher class allows `t`.
fn lowest_at(
    costs: &Costs,
    counts: &[u32],
    class: u32,
    u: &[i128],
    lambda: &[u64],
    t: u32,
) -> Option<i128>
    requires each { AreForEach costs.now.n counts.now u.now lambda.now }
    requires fit { FitAbove costs.now.n counts.now u.now lambda.now class }
    requires observed { t < costs.now.n }
    ensures { IsLeastOf (IsAllowed costs.now.n (scaled_at costs.now) (own_of costs.now)
        counts.now u.now lambda.now class t) result }
{
    let mut least = None;
    for s in 0..costs.n() {
        let i = s as usize;
        if counts[i] > class {
            let allowed = bound(u[i], lambda[i], scaled(costs, s, t), costs.own(s));
            least = lesser(least, Some(allowed));
        }
    }
    least
}

/// The utility of a class that has observations.
pub fn class_utility(costs: &Costs, counts: &[u32], class: u32, u: &[i128], lambda: &[u64]) -> i128
    requires each { AreForEach costs.now.n counts.now u.now lambda.now }
    requires fit { FitAbove costs.now.n counts.now u.now lambda.now class }
    ensures { (t : ℕ) → t < costs.now.n → slice_index counts.now t ≡ class
        → IsClassUtilityBy costs.now.n (scaled_at costs.now) (own_of costs.now)
        (slice_index counts.now) (utility_of u.now) (slice_index lambda.now) class result }
{
    let mut least = None;
    for t in 0..costs.n() {
        if counts[t as usize] == class {
            least = lesser(least, lowest_at(costs, counts, class, u, lambda, t));
        }
    }
    least.unwrap_or(0)
}

/// Gives each observation of a class its utility.
pub fn set_utility(counts: &[u32], class: u32, x: i128, u: &mut [i128])
    requires { length u.old ≡ length counts.now }
    ensures { IsClassSet (length counts.now) counts.now class x u.old u.new }
{
    for t in 0..counts.len() {
        if counts[t] == class {
            u[t] = x;
        }
    }
}
