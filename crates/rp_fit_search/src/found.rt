//! Ranks of the observations and weighted closed walks: by a greedy search, and by a linear program where the bounds of
//! the greedy ones do not meet.
ghost use Rattle.std.specs.Prelude.{IfOk};
ghost use Rattle.rp_fit_search.specs.Looked.{HasLooked};

use crate::arrange::Arranging;
use crate::looks::Looks;
use crate::order::Order;
use crate::packing::{Load, Packing};
use crate::preference::prices;
use crate::rounds::{Solution, rounds};
use rp_check_levels::Measure;
use rp_clauses::input::Input;
use rp_fit::WeightedWalk;
use rp_num::NoMemory;
use std::alloc::Global;

/// Ranks of the observations, and closed walks with weights over `den`.
#[derive(Drop)]
pub(crate) struct Found {
    pub(crate) ranks: Vec<u32>,
    pub(crate) den: u64,
    pub(crate) walks: Vec<WeightedWalk>,
}

/// The observations that each walk goes through.
fn walks_of(alloc: Global, weighted: &[WeightedWalk]) -> Result<Vec<Vec<u32>>, NoMemory> {
    let mut walks = Vec::new(alloc);
    for k in 0..weighted.len() {
        walks.push(Vec::from_slice(alloc, weighted[k].walk.as_slice())?)?;
    }
    Ok(walks)
}

/// The order that a solution shows where it costs no more than its walks, else the cheaper one of it and another after
/// moves.
fn by_solution(
    alloc: Global,
    arranging: &Arranging<'_>,
    solution: &Solution,
    other: Order,
    looks: &mut Looks,
) -> Result<Order, NoMemory>
    ensures { IfOk result (λ _. HasLooked looks.old looks.new) }
{
    let carrying = solution.carrying(alloc, arranging.prices)?;
    let mut order = Order::falling(alloc, &carrying)?;
    if arranging.is_met(&order, solution.den, solution.walks.as_slice(), looks) {
        return Ok(order);
    }
    let mut other = other;
    arranging.improve(&mut order, looks);
    arranging.improve(&mut other, looks);
    if arranging.is_cheaper(&other, &order, looks) {
        Ok(other)
    } else {
        Ok(order)
    }
}

/// Ranks against which the strict steps cost little, and walks that show what they cost at least.
pub(crate) fn find(
    alloc: Global,
    input: &Input<'_>,
    measure: Measure,
    load: Load,
    looks: &mut Looks,
) -> Result<Found, NoMemory>
    ensures { IfOk result (λ _. HasLooked looks.old looks.new) }
{
    let mut packing = Packing::new(alloc, load, prices(alloc, input, measure)?)?;
    packing.fill(alloc, looks)?;
    let mut order = Order::falling(alloc, packing.left())?;
    let arranging = Arranging {
        prices: packing.prices(),
        load,
    };
    if !arranging.is_met(&order, 1, packing.walks.as_slice(), looks) {
        let walks = walks_of(alloc, packing.walks.as_slice())?;
        if let Some(solution) = rounds(alloc, load, packing.prices(), walks, looks)? {
            let order = by_solution(alloc, &arranging, &solution, order, looks)?;
            return Ok(Found {
                ranks: order.ranks,
                den: solution.den,
                walks: solution.walks,
            });
        }
        arranging.improve(&mut order, looks);
    }
    Ok(Found {
        ranks: order.ranks,
        den: 1,
        walks: packing.walks,
    })
}
