//! Orders of the observations.
use crate::graph::{Graph, narrow};
use crate::shortest::is_closed;
use rp_num::NoMemory;
use std::alloc::Global;

/// An order of the observations, the lowest rank first, and the rank of each.
#[derive(Drop)]
pub(crate) struct Order {
    pub(crate) list: Vec<u32>,
    pub(crate) ranks: Vec<u32>,
}

/// The rank of an observation.
pub(crate) fn rank_of(ranks: &[u32], s: u32) -> u32 {
    match ranks.get(s as usize) {
        Some(rank) => *rank,
        None => 0,
    }
}

/// How many steps with a number above 0 lead from each observation.
fn steps_from_each(alloc: Global, graph: &Graph) -> Result<Vec<u32>, NoMemory> {
    let mut counts = Vec::new(alloc);
    for s in 0..graph.count() {
        counts.push(steps_from(graph, s))?;
    }
    Ok(counts)
}

/// How many steps with a number above 0 lead from `s`.
fn steps_from(graph: &Graph, s: u32) -> u32 {
    let mut count: u32 = 0;
    for t in 0..graph.count() {
        if graph.at(s, t) > 0 {
            count = count.saturating_add(1);
        }
    }
    count
}

/// An observation without a rank from which the fewest steps lead.
fn fewest(counts: &[u32], placed: &[bool]) -> Option<u32> {
    let mut found = None;
    let mut fewest = u32::MAX;
    for s in 0..narrow(counts.len()) {
        let count = rank_of(counts, s);
        if count < fewest && !is_closed(placed, s) {
            found = Some(s);
            fewest = count;
        }
    }
    found
}

/// One step less from each observation from which one leads to `t`.
fn without(counts: &mut [u32], graph: &Graph, t: u32) {
    for s in 0..counts.len() {
        if graph.at(narrow(s), t) > 0 {
            counts[s] = counts[s].saturating_sub(1);
        }
    }
}

impl Order {
    /// An order along whose ranks the steps fall, where they have one; else one that few steps go against.
    pub(crate) fn falling(alloc: Global, graph: &Graph) -> Result<Order, NoMemory> {
        let count = graph.count();
        let mut counts = steps_from_each(alloc, graph)?;
        let mut placed = Vec::new(alloc);
        placed.resize(count as usize, false)?;
        let mut order = Order {
            list: Vec::new(alloc),
            ranks: Vec::new(alloc),
        };
        order.ranks.resize(count as usize, 0)?;
        for rank in 0..count {
            let Some(s) = fewest(counts.as_slice(), placed.as_slice()) else {
                return Ok(order);
            };
            without(counts.as_mut_slice(), graph, s);
            if (s as usize) < placed.len() {
                placed[s as usize] = true;
            }
            order.place(s, rank)?;
        }
        Ok(order)
    }

    /// Gives `s` the next rank.
    fn place(&mut self, s: u32, rank: u32) -> Result<(), NoMemory> {
        if (s as usize) < self.ranks.len() {
            self.ranks[s as usize] = rank;
        }
        self.list.push(s)?;
        Ok(())
    }

    /// The observation of a rank.
    pub(crate) fn of_rank(&self, rank: u32) -> u32 {
        rank_of(self.list.as_slice(), rank)
    }

    /// Exchanges the observations of a rank and the next.
    pub(crate) fn exchange(&mut self, rank: u32) {
        let place = rank as usize;
        if place < self.list.len() && place + 1 < self.list.len() {
            let low = self.list[place];
            let high = self.list[place + 1];
            self.list[place] = high;
            self.list[place + 1] = low;
            self.rank(low, rank.saturating_add(1));
            self.rank(high, rank);
        }
    }

    /// Writes the rank of an observation.
    fn rank(&mut self, s: u32, rank: u32) {
        if (s as usize) < self.ranks.len() {
            self.ranks[s as usize] = rank;
        }
    }
}
