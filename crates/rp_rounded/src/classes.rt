//! Classes of observations whose values fix one another.
ghost use Rattle.std.specs.Prelude.{◌<◌, ◌≤◌};
ghost use Rattle.rp_table.specs.Tables.{records_of};

use rp_clauses::input::Input;
use rp_num::{NoMemory, cmp_products};
use std::alloc::Global;
use std::cmp::Ordering;

/// Whether the steps between `s` and `t` and back make the product 1, as with the same or proportional prices or
/// bundles. Then a value at one fixes that at the other, and rounding both down would never rest.
fn is_tied(input: &Input<'_>, s: u32, t: u32) -> bool
    requires one { s < records_of input.now.table.now }
    requires other { t < records_of input.now.table.now }
{
    let across = u128::from(input.cost(s, t));
    let back = u128::from(input.cost(t, s));
    let own = u128::from(input.cost(s, s));
    let other = u128::from(input.cost(t, t));
    cmp_products(across, back, own, other) == Ordering::Equal
}

/// The first observation of the class of `t`.
pub fn first_of(firsts: &[u32], t: u32) -> u32
    ensures { result ≤ t }
{
    match firsts.get(t as usize) {
        Some(first) if *first <= t => *first,
        _ => t,
    }
}

/// The first observation of the class of `t`, given those of the observations before it.
fn first_tied(input: &Input<'_>, firsts: &[u32], t: u32) -> u32
    requires { t < records_of input.now.table.now }
{
    for s in 0..t {
        if first_of(firsts, s) == s && is_tied(input, s, t) {
            return s;
        }
    }
    t
}

/// The first observation of the class of each. The products between the first of a class and the others are exact, and
/// rounds that round products down are made over the classes.
pub fn classes(alloc: Global, input: &Input<'_>) -> Result<Vec<u32>, NoMemory> {
    let mut firsts = Vec::with_capacity(alloc, input.n() as usize)?;
    for t in 0..input.n() {
        let first = first_tied(input, firsts.as_slice(), t);
        firsts.push(first)?;
    }
    Ok(firsts)
}
