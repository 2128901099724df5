//! Closed walks with the least ratio.
use crate::steps::{Ratio, Steps};
use crate::totals::Totals;
use rp_num::NoMemory;
use std::alloc::Global;

/// How many rounds over all steps a search makes at most.
const ROUNDS: u32 = 8192;

/// A closed walk, its ratio, and totals of the observations that show that no closed walk has a lower one.
#[derive(Drop)]
pub(crate) struct Cheapest {
    pub(crate) ratio: Ratio,
    pub(crate) walk: Vec<u32>,
    pub(crate) totals: Vec<i128>,
}

/// A closed walk with the least ratio: from the first observation to itself at first, and then one along which the total
/// at the ratio in hand falls, until there is none (Dinkelbach 1967). None where the rounds pass their limit.
pub(crate) fn cheapest_walk(alloc: Global, steps: &Steps) -> Result<Option<Cheapest>, NoMemory> {
    let mut walk = vec![in alloc; 0, 0]?;
    let mut ratio = steps.ratio_of(walk.as_slice());
    let mut totals = Totals::resting(alloc, steps.count())?;
    for _round in 0..ROUNDS {
        if !totals.round(steps, &ratio) {
            return Ok(Some(Cheapest {
                ratio,
                walk,
                totals: totals.all(alloc)?,
            }));
        }
        if let Some(falling) = totals.closed(alloc, steps)? {
            ratio = steps.ratio_of(falling.as_slice());
            walk = falling;
            totals.rest();
        }
    }
    Ok(None)
}
