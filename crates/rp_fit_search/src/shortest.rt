//! Shortest closed walks.
ghost use Rattle.std.specs.Prelude.{IfOk};
ghost use Rattle.rp_fit_search.specs.Looked.{HasLooked};

use crate::graph::{Graph, entry, narrow};
use crate::looks::Looks;
use rp_num::NoMemory;
use std::alloc::Global;

/// A search for a shortest closed walk, breadth first: the observations that were reached, in their order, and from
/// which each was.
#[derive(Drop)]
struct Search {
    reached: Vec<u32>,
    before: Vec<Option<u32>>,
}

/// The observation from which one was reached.
fn before_of(before: &[Option<u32>], t: u32) -> Option<u32> {
    match before.get(t as usize) {
        Some(found) => *found,
        None => None,
    }
}

impl Search {
    /// A search from `start` among so many observations.
    fn new(alloc: Global, start: u32, count: u32) -> Result<Search, NoMemory> {
        let mut reached = Vec::new(alloc);
        reached.push(start)?;
        let mut before = Vec::new(alloc);
        before.resize(count as usize, None)?;
        Ok(Search { reached, before })
    }

    /// Notes those to which steps of at least so much lead from `s`, where they are not closed off. Whether the start is
    /// among them.
    fn go_on(
        &mut self,
        start: u32,
        s: u32,
        row: &[u64],
        least: u64,
        closed: &[bool],
    ) -> Result<bool, NoMemory> {
        for t in 0..narrow(row.len()) {
            if entry(row, t) >= least && !is_closed(closed, t) {
                if t == start {
                    return Ok(true);
                }
                self.note(s, t)?;
            }
        }
        Ok(false)
    }

    /// Notes that `t` is reached from `s`, where it was not reached before.
    fn note(&mut self, s: u32, t: u32) -> Result<(), NoMemory> {
        let place = t as usize;
        if place < self.before.len() && self.before[place].is_none() {
            self.before[place] = Some(s);
            self.reached.push(t)?;
        }
        Ok(())
    }

    /// The walk from the start to `end`, and to the start again.
    fn walk_to(&self, alloc: Global, start: u32, end: u32) -> Result<Vec<u32>, NoMemory> {
        let mut walk = Vec::new(alloc);
        walk.push(start)?;
        let mut at = end;
        for _ in 0..self.before.len() {
            if at == start {
                break;
            }
            walk.push(at)?;
            at = before_of(self.before.as_slice(), at).unwrap_or(start);
        }
        walk.push(start)?;
        walk.as_mut_slice().reverse();
        Ok(walk)
    }
}

/// Whether an observation is closed off.
pub(crate) fn is_closed(closed: &[bool], t: u32) -> bool {
    match closed.get(t as usize) {
        Some(is) => *is,
        None => false,
    }
}

/// A closed walk of fewest steps with a number above 0 from `start`, the first with at least `first`, through no
/// observation twice and none that is closed off. None where there is none, or where no look is left.
pub(crate) fn shortest_closed_walk(
    alloc: Global,
    graph: &Graph,
    start: u32,
    first: u64,
    closed: &[bool],
    looks: &mut Looks,
) -> Result<Option<Vec<u32>>, NoMemory>
    ensures { IfOk result (λ _. HasLooked looks.old looks.new) }
{
    let mut search = Search::new(alloc, start, graph.count())?;
    for k in 0..graph.count() as usize {
        if k >= search.reached.len() {
            return Ok(None);
        }
        let s = search.reached[k];
        let Some(row) = graph.row(s, looks) else {
            return Ok(None);
        };
        let least = if k == 0 { first } else { 1 };
        if search.go_on(start, s, row, least, closed)? {
            return Ok(Some(search.walk_to(alloc, start, s)?));
        }
    }
    Ok(None)
}
