//! Least rounded products, round by round, over classes of observations.
ghost use Rattle.std.specs.Prelude.{◌≡◌, ◌^◌, ◌<◌, ◌≤◌, length};
ghost use Rattle.rp_table.specs.Tables.{records_of};

use crate::classes::first_of;
use crate::product::{is_clearly_no_less, short_product};
use rp_clauses::input::Input;
use rp_num::Frac;
use std::cmp::Ordering;

/// The least product that the rounds found so far for the first observation of a class, the step that leads to the
/// class, from an observation of another to one of its own, and the round that found it. Those of observations that
/// are not the first of their class are not used.
#[derive(Clone, Copy)]
pub struct Best {
    pub product: Frac,
    pub from: u32,
    pub to: u32,
    pub round: u32,
}

/// How rounds end.
#[derive(Clone, Copy, Debug, PartialEq, Eq)]
pub enum End {
    /// A round made no product less.
    Rest,
    /// Each of the rounds made one less.
    Restless,
    /// A denominator got too long.
    TooLong,
}

/// The product `v` at an observation times `across/own`, rounded down, or `best` where the product is clearly no less.
/// None where a denominator got too long.
fn lesser(v: Frac, across: u64, own: u64, best: Frac) -> Option<Frac>
    requires own { 1 ≤ own }
    requires below { own < 2 ^ 51 }
{
    if is_clearly_no_less(v, across, own, best) {
        Some(best)
    } else {
        short_product(v, across, own)
    }
}

/// The product at the first observation of a class after the step from `t` with the product `v` to `s` of that class,
/// rounded down, or `best` where it is clearly no less. None where a denominator got too long.
fn stepped(input: &Input<'_>, v: Frac, t: u32, s: u32, first: u32, best: Frac) -> Option<Frac>
    requires from { t < records_of input.now.table.now }
    requires to { s < records_of input.now.table.now }
    requires first { first < records_of input.now.table.now }
{
    let across = input.cost(t, s);
    let own = input.cost(t, t);
    if s == first {
        return lesser(v, across, own, best);
    }
    let at = short_product(v, across, own)?;
    lesser(at, input.cost(first, first), input.cost(first, s), best)
}

/// Tries the steps from `t` with the product `v` to other classes. Whether all denominators were short enough.
fn try_steps(
    input: &Input<'_>,
    firsts: &[u32],
    v: Frac,
    t: u32,
    round: u32,
    next: &mut [Best],
) -> bool
    requires from { t < records_of input.now.table.now }
    requires each { length next.old ≡ records_of input.now.table.now }
{
    for s in 0..input.n() {
        let first = first_of(firsts, s);
        if first != first_of(firsts, t) {
            let best = next[first as usize].product;
            let Some(product) = stepped(input, v, t, s, first, best) else {
                return false;
            };
            if product.cmp(best) == Ordering::Less {
                next[first as usize] = Best {
                    product,
                    from: t,
                    to: s,
                    round,
                };
            }
        }
    }
    true
}

/// The product at `t` by that at the first observation of its class, rounded down. None where a denominator got too
/// long.
fn product_at(input: &Input<'_>, product: Frac, first: u32, t: u32) -> Option<Frac>
    requires first { first < records_of input.now.table.now }
    requires other { t < records_of input.now.table.now }
{
    if first == t {
        Some(product)
    } else {
        short_product(product, input.cost(first, t), input.cost(first, first))
    }
}

/// One round: a step more from each class that the round before made less. Whether all denominators were short enough.
fn one_round(
    input: &Input<'_>,
    firsts: &[u32],
    round: u32,
    best: &[Best],
    next: &mut [Best],
) -> bool
    requires few { 1 ≤ round }
    requires each { length best.now ≡ records_of input.now.table.now }
    requires each_next { length next.old ≡ records_of input.now.table.now }
{
    for t in 0..input.n() {
        let first = first_of(firsts, t);
        let from = best[first as usize];
        if from.round == round - 1 {
            let Some(v) = product_at(input, from.product, first, t) else {
                return false;
            };
            if !try_steps(input, firsts, v, t, round, next) {
                return false;
            }
        }
    }
    true
}

/// Whether the round made some product less.
fn improves(best: &[Best], round: u32) -> bool {
    best.iter().any(|b| b.round == round)
}

/// Runs so many rounds at most over the classes with these first observations (Bellman 1958; Ford 1956), over products
/// that are rounded down where they get long.
pub fn run_rounds(
    input: &Input<'_>,
    firsts: &[u32],
    rounds: u32,
    best: &mut [Best],
    next: &mut [Best],
) -> End
    requires few { rounds < 2 ^ 31 }
    requires each { length best.old ≡ records_of input.now.table.now }
    requires each_next { length next.old ≡ records_of input.now.table.now }
{
    for round in 1..rounds + 1 {
        if !one_round(input, firsts, round, best, next) {
            return End::TooLong;
        }
        if !improves(next, round) {
            return End::Rest;
        }
        best.copy_from_slice(next);
    }
    End::Restless
}
