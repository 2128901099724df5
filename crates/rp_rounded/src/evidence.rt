//! Homothetic evidence by rounded products, where the checker takes it.
ghost use Rattle.std.specs.Prelude.{◌≡◌, ◌<◌, All, IfOk, IfSome, length, vec_len};
ghost use Rattle.rp_clauses.specs.HomotheticFailure.{HomotheticFails};
ghost use Rattle.rp_evidence.specs.Homothetic.{ProvesHomothetic, withheld_homothetic};
ghost use Rattle.rp_num.specs.Spelled.{IsReduced};
ghost use Rattle.rp_rounded.specs.Reduced.{AreReduced};
ghost use Rattle.rp_table.specs.Cost.{cost_of};
ghost use Rattle.rp_table.specs.Tables.{records_of};

use crate::classes::{classes, first_of};
use crate::last_improvements::{closed_walk, inverse_of_half};
use crate::rounds::{Best, End, run_rounds};
use rp_clauses::homothetic::check_homothetic;
use rp_clauses::input::Input;
use rp_evidence::Homothetic;
use rp_num::{Frac, NoMemory, Seq};
use std::alloc::Global;

/// The evidence where the checker finds nothing wrong with it.
fn if_it_passes(input: &Input<'_>, found: Homothetic) -> Option<Homothetic>
    requires given { withheld_homothetic found ≡ 0 }
    requires reduced { AreReduced found }
    ensures passes { IfSome result (λ h. HomotheticFails (records_of input.now.table.now)
        (cost_of input.now.table.now) h (Ok tt)) }
    ensures given { IfSome result (λ h. withheld_homothetic h ≡ 0) }
    ensures reduced { IfSome result AreReduced }
{
    match check_homothetic(input, &found) {
        Ok(()) => Some(found),
        Err(_) => None,
    }
}

/// The value at `t` by the product at the first observation of its class, exact. None where it passes the width.
fn value_at(input: &Input<'_>, product: Frac, first: u32, t: u32) -> Option<Frac>
    requires first { first < records_of input.now.table.now }
    requires other { t < records_of input.now.table.now }
    ensures { IfSome result IsReduced }
{
    let own = input.cost(first, first);
    let Ok(value) = product.times(input.cost(first, t), own) else {
        return None;
    };
    prove!(value.den() > 0);
    Some(value)
}

/// The values, by observation. None where one passes the width.
fn values(
    alloc: Global,
    input: &Input<'_>,
    firsts: &[u32],
    best: &[Best],
) -> Result<Option<Seq<Frac>>, NoMemory>
    requires { length best.now ≡ records_of input.now.table.now }
    ensures { IfOk result (λ o. IfSome o (All IsReduced)) }
{
    let mut values = Vec::with_capacity(alloc, best.len())?;
    for t in 0..input.n() {
        let first = first_of(firsts, t);
        match value_at(input, best[first as usize].product, first, t) {
            Some(value) => values.push(value)?,
            None => return Ok(None),
        }
    }
    Ok(Some(Seq::from_vec(values)))
}

/// A closed walk of the last improvements as evidence that the test fails: from 1, or where that is not taken, as
/// where a product passes the width, from the inverse of the product of its first half.
fn falling_cycle(
    alloc: Global,
    input: &Input<'_>,
    best: &[Best],
    firsts: &[u32],
    round: u32,
) -> Result<Option<Homothetic>, NoMemory>
    ensures passes { IfOk result (λ o. IfSome o (λ h. HomotheticFails
        (records_of input.now.table.now) (cost_of input.now.table.now) h (Ok tt))) }
    ensures given { IfOk result (λ o. IfSome o (λ h. withheld_homothetic h ≡ 0)) }
    ensures reduced { IfOk result (λ o. IfSome o AreReduced) }
{
    let walk = closed_walk(alloc, best, firsts, round)?;
    let one = Frac::new(1, 1);
    prove!(one.den() > 0);
    let from_one = Homothetic::Cycle {
        start: one,
        steps: Seq::from_vec(Vec::from_slice(alloc, walk.as_slice())?),
    };
    match if_it_passes(input, from_one) {
        Some(cycle) => Ok(Some(cycle)),
        None => match inverse_of_half(input, walk.as_slice()) {
            Some(start) => {
                prove!(start.den() > 0);
                let steps = Seq::from_vec(walk);
                Ok(if_it_passes(input, Homothetic::Cycle { start, steps }))
            }
            None => Ok(None),
        },
    }
}

/// Evidence for the homothetic test by least products over walks, each rounded down to 60 binary digits where it gets
/// longer (rounds after Bellman 1958 and Ford 1956; the test: Varian 1983). Rounding only lowers what a step allows, so
/// where a round makes nothing less, each product is at most every exact one that leads to it. Observations between
/// which the steps there and back make the product 1 form a class: the ratios of their values are exact, and the rounds
/// are made over the classes. Where twice as many rounds as there are observations, and two, bring no rest, a closed
/// walk of the last improvements is tried. None where a denominator would reach 2^120, or where the checker does not
/// take what was found; how often that is, no clause says. What is never given is a verdict that is withheld.
pub fn rounded_homothetic(alloc: Global, input: &Input<'_>) -> Result<Option<Homothetic>, NoMemory>
    ensures passes { IfOk result (λ o. IfSome o (λ h. HomotheticFails
        (records_of input.now.table.now) (cost_of input.now.table.now) h (Ok tt))) }
    ensures given { IfOk result (λ o. IfSome o (λ h. withheld_homothetic h ≡ 0)) }
    ensures reduced { IfOk result (λ o. IfSome o AreReduced) }
    ensures proves { IfOk result (λ o. IfSome o
        (ProvesHomothetic (records_of input.now.table.now) (cost_of input.now.table.now))) }
{
    let firsts = classes(alloc, input)?;
    let firsts = firsts.as_slice();
    let mut best = at_one(alloc, input.n())?;
    let mut next = at_one(alloc, input.n())?;
    let rounds = 2 * input.n() + 2;
    match run_rounds(
        input,
        firsts,
        rounds,
        best.as_mut_slice(),
        next.as_mut_slice(),
    ) {
        End::Rest => {
            match values(alloc, input, firsts, next.as_slice())? {
                Some(values) => Ok(if_it_passes(input, Homothetic::Values(values))),
                None => Ok(None),
            }
        }
        End::Restless => falling_cycle(alloc, input, next.as_slice(), firsts, rounds),
        End::TooLong => Ok(None),
    }
}

/// The walks of no step: the product 1 at each observation.
fn at_one(alloc: Global, n: u32) -> Result<Vec<Best>, NoMemory>
    ensures { IfOk result (λ best. vec_len best ≡ n) }
{
    let mut best = Vec::with_capacity(alloc, n as usize)?;
    for s in 0..n {
        best.push(Best {
            product: Frac::new(1, 1),
            from: s,
            to: s,
            round: 0,
        })?;
    }
    Ok(best)
}
