//! The greatest lower bound that values show.
ghost use Rattle.std.specs.Prelude.{◌≡◌, ◌<◌, length};
ghost use Rattle.rp_table.specs.Tables.{records_of};

use rp_clauses::input::Input;
use rp_num::cmp_products;
use std::cmp::Ordering;

/// The parts of 1 in which the level's bounds are given.
pub(crate) const PARTS: u64 = 1 << 40;

/// A fraction of one number in another, in parts of 1 and rounded down; at most 1.
fn part_of(number: u128, whole: u128) -> u64 {
    let mut rest = number.min(whole);
    let mut part: u64 = 0;
    for more in [1 << 16, 1 << 16, 1 << 8] {
        rest = rest.saturating_mul(u128::from(more));
        let times = rest / whole.max(1);
        rest = rest.saturating_sub(times.saturating_mul(whole));
        part = part
            .saturating_mul(more)
            .saturating_add(u64::try_from(times).unwrap_or(0));
    }
    part.min(PARTS)
}

/// The product of two numbers.
fn product(a: u64, b: u64) -> u128 {
    u128::from(a) * u128::from(b)
}

/// The lower bound that the values of `s` and `t` show by the step from one to the other, where it is below another one.
fn lower(input: &Input<'_>, values: &[u64], low: u64, s: u32, t: u32) -> u64
    requires from { s < records_of input.now.table.now }
    requires to { t < records_of input.now.table.now }
    requires one_each { length values.now ≡ records_of input.now.table.now }
{
    let here = product(values[s as usize], input.cost(s, t));
    let there = product(values[t as usize], input.cost(s, s));
    let parts = u128::from(PARTS);
    if cmp_products(there, u128::from(low), here, parts) == Ordering::Greater {
        part_of(here, there)
    } else {
        low
    }
}

/// The greatest lower bound that values show, over 2^40.
pub(crate) fn low_of(input: &Input<'_>, values: &[u64]) -> u64 {
    let n = input.n();
    let mut low = PARTS;
    if values.len() != n as usize {
        return 0;
    }
    for s in 0..n {
        for t in 0..n {
            low = lower(input, values, low, s, t);
        }
    }
    low
}
