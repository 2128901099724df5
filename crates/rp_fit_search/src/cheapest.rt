//! Cheapest closed walks by lengths of the steps (Dijkstra 1959).
ghost use Rattle.std.specs.Prelude.{IfOk};
ghost use Rattle.rp_fit_search.specs.Looked.{HasLooked};

use crate::graph::{Graph, entry, narrow};
use crate::looks::Looks;
use crate::shortest::is_closed;
use rp_num::NoMemory;
use std::alloc::Global;

/// How an observation was reached: by a walk of this length and so many steps, the last of them from the one before.
#[derive(Clone, Copy)]
struct Reached {
    length: u64,
    steps: u32,
    before: u32,
}

impl Reached {
    /// Whether this walk is shorter, or has fewer steps where both are as long.
    fn is_closer(&self, other: &Reached) -> bool {
        self.length < other.length || (self.length == other.length && self.steps < other.steps)
    }

    /// Whether this walk is closer than the one by which an observation was reached, where it was.
    fn improves(&self, known: &Option<Reached>) -> bool {
        match known {
            Some(other) => self.is_closer(other),
            None => true,
        }
    }
}

/// A closed walk from `start` that is shorter than `below`. The number of its first step is at least `first`.
#[derive(Clone, Copy)]
pub(crate) struct Sought {
    pub(crate) start: u32,
    pub(crate) first: u64,
    pub(crate) below: u64,
}

/// A search for the cheapest closed walk from an observation that is cheaper than `below`: how each other one was
/// reached, which are done, and how the start was reached again.
#[derive(Drop)]
struct Search {
    start: u32,
    below: u64,
    reached: Vec<Option<Reached>>,
    done: Vec<bool>,
    end: Option<Reached>,
}

impl Search {
    /// A search from `start` among so many observations.
    fn new(alloc: Global, start: u32, count: u32, below: u64) -> Result<Search, NoMemory> {
        let mut reached = Vec::new(alloc);
        reached.resize(count as usize, None)?;
        let mut done = Vec::new(alloc);
        done.resize(count as usize, false)?;
        Ok(Search {
            start,
            below,
            reached,
            done,
            end: None,
        })
    }

    /// How an observation was reached.
    fn reached(&self, t: u32) -> Option<Reached> {
        match self.reached.get(t as usize) {
            Some(found) => *found,
            None => None,
        }
    }

    /// The closest observation that is not done, where a walk through it may be cheap enough.
    fn closest(&self) -> Option<(u32, Reached)> {
        let mut found: Option<(u32, Reached)> = None;
        for t in 0..narrow(self.done.len()) {
            if let (Some(at), false) = (self.reached(t), is_closed(self.done.as_slice(), t)) {
                let is_closest = match &found {
                    Some((_, closest)) => at.is_closer(closest),
                    None => at.length < self.below,
                };
                if is_closest {
                    found = Some((t, at));
                }
            }
        }
        found
    }

    /// Notes that a step leads to `t`.
    fn note(&mut self, t: u32, by: Reached) {
        let place = t as usize;
        if t == self.start {
            if by.length < self.below {
                self.below = by.length;
                self.end = Some(by);
            }
        } else if place < self.reached.len() && by.improves(&self.reached[place]) {
            self.reached[place] = Some(by);
        }
    }

    /// Goes on from `s` by the steps of a row of at least so much to observations that are not closed off.
    fn go_on(
        &mut self,
        s: u32,
        at: Reached,
        least: u64,
        row: &[u64],
        lengths: &Graph,
        closed: &[bool],
    ) {
        if (s as usize) < self.done.len() {
            self.done[s as usize] = true;
        }
        for t in 0..narrow(row.len()) {
            if entry(row, t) >= least && !is_closed(closed, t) {
                let by = Reached {
                    length: at.length.saturating_add(lengths.at(s, t)),
                    steps: at.steps.saturating_add(1),
                    before: s,
                };
                self.note(t, by);
            }
        }
    }

    /// The closed walk by which the start was reached again.
    fn walk(&self, alloc: Global, end: &Reached) -> Result<Vec<u32>, NoMemory> {
        let mut walk = Vec::new(alloc);
        walk.push(self.start)?;
        let mut at = end.before;
        for _ in 0..self.reached.len() {
            if at == self.start {
                break;
            }
            walk.push(at)?;
            at = match self.reached(at) {
                Some(by) => by.before,
                None => self.start,
            };
        }
        walk.push(self.start)?;
        walk.as_mut_slice().reverse();
        Ok(walk)
    }
}

/// The cheapest closed walk by the lengths of its steps that is sought, through no observation twice and none that is
/// closed off. A step is one with a number above 0 in `graph`. None where there is none, or where no look is left.
pub(crate) fn cheapest_closed_walk(
    alloc: Global,
    graph: &Graph,
    lengths: &Graph,
    sought: Sought,
    closed: &[bool],
    looks: &mut Looks,
) -> Result<Option<Vec<u32>>, NoMemory>
    ensures { IfOk result (λ _. HasLooked looks.old looks.new) }
{
    let start = sought.start;
    let mut search = Search::new(alloc, start, graph.count(), sought.below)?;
    let first = Reached {
        length: 0,
        steps: 0,
        before: start,
    };
    let mut next = Some((start, first));
    for turn in 0..graph.count() {
        let Some((s, at)) = next else {
            break;
        };
        let Some(row) = graph.row(s, looks) else {
            return Ok(None);
        };
        let least = if turn == 0 { sought.first } else { 1 };
        search.go_on(s, at, least, row, lengths, closed);
        next = search.closest();
    }
    match search.end {
        Some(end) => Ok(Some(search.walk(alloc, &end)?)),
        None => Ok(None),
    }
}
