//! The walk that made a product less last, followed back.
use crate::classes::first_of;
use crate::rounds::Best;
use rp_clauses::input::Input;
use rp_num::{Frac, NoMemory};
use std::alloc::Global;

/// The step that made the product of the class of `s` less last, to an observation of the class; from `s` to itself
/// where there is none.
fn step_to(best: &[Best], s: u32) -> (u32, u32) {
    match best.get(s as usize) {
        Some(found) => (found.from, found.to),
        None => (s, s),
    }
}

/// The first observation of the class before that of `s` on the walk that made its product less.
fn before(best: &[Best], firsts: &[u32], s: u32) -> u32 {
    first_of(firsts, step_to(best, s).0)
}

/// The first observation of a class that so many steps back from `s` lead to as there are observations: it lies on a
/// closed walk of last improvements.
fn far_before(best: &[Best], firsts: &[u32], s: u32) -> u32 {
    let mut at = first_of(firsts, s);
    for _ in 0..best.len() {
        at = before(best, firsts, at);
    }
    at
}

/// Adds an observation to a walk that ends with another.
fn go_to(walk: &mut Vec<u32>, s: u32) -> Result<(), NoMemory> {
    if walk.as_slice().last() != Some(&s) {
        walk.push(s)?;
    }
    Ok(())
}

/// The walk of last improvements from `at`, the first of its class, back to it, in the order in which it goes. Within a
/// class it goes by the first observation.
fn walk_back(alloc: Global, best: &[Best], firsts: &[u32], at: u32) -> Result<Vec<u32>, NoMemory> {
    let mut walk = Vec::new(alloc);
    walk.push(at)?;
    let mut s = at;
    for _ in 0..best.len() {
        let (from, to) = step_to(best, s);
        s = first_of(firsts, from);
        go_to(&mut walk, to)?;
        go_to(&mut walk, from)?;
        go_to(&mut walk, s)?;
        if s == at {
            break;
        }
    }
    walk.reverse();
    Ok(walk)
}

/// The observation from which a round first made another less, or 0.
fn first_from(best: &[Best], round: u32) -> u32 {
    match best.iter().find(|b| b.round == round) {
        Some(found) => found.from,
        None => 0,
    }
}

/// A closed walk of the last improvements, from one that the round made.
pub fn closed_walk(
    alloc: Global,
    best: &[Best],
    firsts: &[u32],
    round: u32,
) -> Result<Vec<u32>, NoMemory> {
    walk_back(
        alloc,
        best,
        firsts,
        far_before(best, firsts, first_from(best, round)),
    )
}

/// The product over the first half of a walk's steps, or none where it passes the width or the walk leaves the table.
fn half_product(input: &Input<'_>, walk: &[u32]) -> Option<Frac> {
    let mut product = Frac::new(1, 1);
    for k in 0..walk.len() / 2 {
        let t = walk[k];
        let s = walk[k + 1];
        if t >= input.n() || s >= input.n() {
            return None;
        }
        match product.times(input.cost(t, s), input.cost(t, t)) {
            Ok(taken) => product = taken,
            Err(_) => return None,
        }
    }
    Some(product)
}

/// The inverse of the product of the walk's first half: from it the products along the walk stay about 1.
pub fn inverse_of_half(input: &Input<'_>, walk: &[u32]) -> Option<Frac> {
    let half = half_product(input, walk)?;
    if half.num() == 0 {
        return None;
    }
    Some(Frac::new(half.den(), half.num()))
}
