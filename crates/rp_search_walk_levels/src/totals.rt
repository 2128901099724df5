//! Least totals of walks at a ratio.
use crate::steps::{Ratio, Steps, narrow};
use rp_num::NoMemory;
use std::alloc::Global;

/// The least total so far of walks to an observation, and the observation before it, where it was reached by a step.
#[derive(Clone, Copy)]
struct Reached {
    total: i128,
    before: Option<u32>,
}

/// No walk but that of no step.
const RESTING: Reached = Reached {
    total: 0,
    before: None,
};

/// The least totals so far of walks to each observation.
#[derive(Drop)]
pub(crate) struct Totals {
    reached: Vec<Reached>,
}

/// What a step adds times what the ratio is over.
fn product(den: i64, added: i64) -> i128 {
    i128::from(den) * i128::from(added)
}

/// A ratio's sum times what a step counts.
fn counted(num: i128, count: i64) -> i128 {
    num.saturating_mul(i128::from(count))
}

/// Makes each walk one of no step.
fn rest_each(reached: &mut [Reached]) {
    for k in 0..reached.len() {
        reached[k] = RESTING;
    }
}

/// Goes on from `s` by each step of a row. Whether one leads to a lesser total.
fn go_on(reached: &mut [Reached], s: u32, total: i128, den: i64, row: &[i64]) -> bool {
    let mut is_less = false;
    for t in 0..row.len().min(reached.len()) {
        let next = total.saturating_add(product(den, row[t]));
        if next < reached[t].total {
            reached[t] = Reached {
                total: next,
                before: Some(s),
            };
            is_less = true;
        }
    }
    is_less
}

impl Totals {
    /// Walks of no step.
    pub(crate) fn resting(alloc: Global, count: u32) -> Result<Totals, NoMemory> {
        let mut reached = Vec::new(alloc);
        reached.resize(count as usize, RESTING)?;
        Ok(Totals { reached })
    }

    /// Walks of no step again.
    pub(crate) fn rest(&mut self) {
        rest_each(self.reached.as_mut_slice());
    }

    /// The total of the walk to `s`.
    fn total(&self, s: u32) -> i128 {
        match self.reached.get(s as usize) {
            Some(reached) => reached.total,
            None => 0,
        }
    }

    /// The observation before `s`, where it was reached by a step.
    fn before(&self, s: u32) -> Option<u32> {
        match self.reached.get(s as usize) {
            Some(reached) => reached.before,
            None => None,
        }
    }

    /// The totals of the walks to all observations.
    pub(crate) fn all(&self, alloc: Global) -> Result<Vec<i128>, NoMemory> {
        let mut totals = Vec::new(alloc);
        for s in 0..narrow(self.reached.len()) {
            totals.push(self.total(s))?;
        }
        Ok(totals)
    }

    /// One round over all steps at a ratio (Bellman 1958; Ford 1956). Whether one leads to a lesser total.
    pub(crate) fn round(&mut self, steps: &Steps, ratio: &Ratio) -> bool {
        let mut is_less = false;
        for s in 0..steps.count() {
            let total = self
                .total(s)
                .saturating_sub(counted(ratio.num, steps.counted(s)));
            let went_on = go_on(
                self.reached.as_mut_slice(),
                s,
                total,
                ratio.den,
                steps.row(s),
            );
            is_less = is_less || went_on;
        }
        is_less
    }

    /// Marks the observations by which `s` was reached, from the last one back, as far as one that has a mark. That one
    /// where the mark is of this walk, so that it is closed.
    fn mark(&self, marks: &mut [u32], s: u32) -> Option<u32> {
        let mark = s.saturating_add(1);
        let mut at = s;
        for _ in 0..marks.len().saturating_add(1) {
            let place = at as usize;
            if place >= marks.len() {
                return None;
            }
            if marks[place] != 0 {
                return if marks[place] == mark { Some(at) } else { None };
            }
            marks[place] = mark;
            at = self.before(at)?;
        }
        None
    }

    /// The closed walk by which `s` was reached from itself.
    fn closed_walk(&self, alloc: Global, s: u32) -> Result<Vec<u32>, NoMemory> {
        let mut walk = Vec::new(alloc);
        walk.push(s)?;
        let mut at = s;
        for _ in 0..self.reached.len() {
            at = self.before(at).unwrap_or(s);
            walk.push(at)?;
            if at == s {
                break;
            }
        }
        walk.as_mut_slice().reverse();
        Ok(walk)
    }

    /// The closed walk with the least ratio among those by which observations were reached.
    pub(crate) fn closed(
        &self,
        alloc: Global,
        steps: &Steps,
    ) -> Result<Option<Vec<u32>>, NoMemory> {
        let mut marks = Vec::new(alloc);
        marks.resize(self.reached.len(), 0)?;
        let mut found: Option<Vec<u32>> = None;
        for s in 0..narrow(self.reached.len()) {
            if let Some(at) = self.mark(marks.as_mut_slice(), s) {
                found = Some(lower(steps, found, self.closed_walk(alloc, at)?));
            }
        }
        Ok(found)
    }
}

/// The walk with the lower ratio.
fn lower(steps: &Steps, found: Option<Vec<u32>>, other: Vec<u32>) -> Vec<u32> {
    match found {
        Some(walk) => {
            let ratio = steps.ratio_of(walk.as_slice());
            if steps.ratio_of(other.as_slice()).is_below(&ratio) {
                other
            } else {
                walk
            }
        }
        None => other,
    }
}
