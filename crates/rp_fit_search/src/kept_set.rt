//! Consistent sets of observations.
ghost use Rattle.std.specs.Prelude.{◌≤◌, IfOk, length};
ghost use Rattle.rp_fit_search.specs.Looked.{HasLooked};

use crate::graph::{Graph, entry, narrow};
use crate::kept_groups::contradict;
use crate::kinds::STRICT;
use crate::looks::Looks;
use crate::order::rank_of;
use crate::shortest::is_closed;
use rp_fit::Group;
use rp_num::NoMemory;
use std::alloc::Global;

/// A set of observations in increasing order, and ranks that respect the steps between them.
#[derive(Drop)]
pub(crate) struct RankedSet {
    pub(crate) kept: Vec<u32>,
    pub(crate) ranks: Vec<u32>,
}

/// Walks within a set that begin at an observation: where they end, and whether some step was strict.
#[derive(Drop)]
struct Ends {
    reached: Vec<(u32, bool)>,
    weakly: Vec<bool>,
    strictly: Vec<bool>,
}

/// Notes an observation. Whether it was not noted before.
fn note(noted: &mut [bool], t: u32) -> bool {
    let place = t as usize;
    if place >= noted.len() || noted[place] {
        return false;
    }
    noted[place] = true;
    true
}

impl Ends {
    /// The walk of no step.
    fn new(alloc: Global, start: u32, count: u32) -> Result<Ends, NoMemory> {
        let mut reached = Vec::new(alloc);
        reached.push((start, false))?;
        let mut weakly = Vec::new(alloc);
        weakly.resize(count as usize, false)?;
        let mut strictly = Vec::new(alloc);
        strictly.resize(count as usize, false)?;
        Ok(Ends {
            reached,
            weakly,
            strictly,
        })
    }

    /// Notes that a walk leads to `t`.
    fn reach(&mut self, t: u32, strict: bool) -> Result<(), NoMemory> {
        let is_new = if strict {
            note(self.strictly.as_mut_slice(), t)
        } else {
            note(self.weakly.as_mut_slice(), t)
        };
        if is_new {
            self.reached.push((t, strict))?;
        }
        Ok(())
    }

    /// Goes on by the steps of a row to observations of the set. Whether a walk with a strict step comes back.
    fn go_on(
        &mut self,
        start: u32,
        row: &[u64],
        strict: bool,
        within: &[bool],
    ) -> Result<bool, NoMemory> {
        for t in 0..narrow(row.len()) {
            let kind = entry(row, t);
            let is_strict = strict || kind == STRICT;
            if kind > 0 && t == start && is_strict {
                return Ok(true);
            }
            if kind > 0 && is_closed(within, t) {
                self.reach(t, is_strict)?;
            }
        }
        Ok(false)
    }
}

/// Whether no violation goes through an observation and a set; no where no look is left.
fn goes_with(
    alloc: Global,
    kinds: &Graph,
    start: u32,
    within: &[bool],
    looks: &mut Looks,
) -> Result<bool, NoMemory>
    ensures { IfOk result (λ _. HasLooked looks.old looks.new) }
{
    let mut ends = Ends::new(alloc, start, kinds.count())?;
    for k in 0..(kinds.count() as usize).saturating_mul(2).saturating_add(1) {
        if k >= ends.reached.len() {
            return Ok(true);
        }
        let (s, strict) = ends.reached[k];
        let Some(row) = kinds.row(s, looks) else {
            return Ok(false);
        };
        if ends.go_on(start, row, strict, within)? {
            return Ok(false);
        }
    }
    Ok(true)
}

/// With how many observations one contradicts.
fn contradictions(kinds: &Graph, s: u32) -> u32 {
    let mut count: u32 = 0;
    for t in 0..kinds.count() {
        if contradict(kinds, s, t) {
            count = count.saturating_add(1);
        }
    }
    count
}

/// The place of an observation in a list in the order of some counts, behind those with the same count.
fn place_of(counts: &[u32], list: &[u32], s: u32) -> usize
    ensures { result ≤ length list.now }
{
    for k in 0..list.len() {
        if rank_of(counts, list[k]) > rank_of(counts, s) {
            return k;
        }
    }
    list.len()
}

/// A list of observations in the order of some counts, the lowest first.
pub(crate) fn in_order(
    alloc: Global,
    counts: &[u32],
    before: &[u32],
) -> Result<Vec<u32>, NoMemory> {
    let mut list = Vec::new(alloc);
    for k in 0..before.len() {
        let at = place_of(counts, list.as_slice(), before[k]);
        list.insert(at, before[k])?;
    }
    Ok(list)
}

/// The observations, those that fewest contradict first.
pub(crate) fn by_contradictions(alloc: Global, kinds: &Graph) -> Result<Vec<u32>, NoMemory> {
    let mut counts = Vec::new(alloc);
    let mut list = Vec::new(alloc);
    for s in 0..kinds.count() {
        counts.push(contradictions(kinds, s))?;
        list.push(s)?;
    }
    in_order(alloc, counts.as_slice(), list.as_slice())
}

/// The set of those in a list that go with the ones before them.
fn greedy(
    alloc: Global,
    kinds: &Graph,
    list: &[u32],
    looks: &mut Looks,
) -> Result<Vec<bool>, NoMemory>
    ensures { IfOk result (λ _. HasLooked looks.old looks.new) }
{
    let mut within = Vec::new(alloc);
    within.resize(kinds.count() as usize, false)?;
    for k in 0..list.len() {
        if goes_with(alloc, kinds, list[k], within.as_slice(), looks)? {
            note(within.as_mut_slice(), list[k]);
        }
    }
    Ok(within)
}

/// The members of a set in increasing order.
fn members(alloc: Global, within: &[bool]) -> Result<Vec<u32>, NoMemory> {
    let mut kept = Vec::new(alloc);
    for s in 0..within.len() {
        if within[s] {
            kept.push(narrow(s))?;
        }
    }
    Ok(kept)
}

/// The rank that the steps from a member leave it: that of each member to which a step leads, and one more where the step
/// is strict.
fn rank_by_steps(kinds: &Graph, kept: &[u32], ranks: &[u32], s: u32, own: u32) -> u32 {
    let mut rank = own;
    for k in 0..kept.len() {
        let kind = kinds.at(s, kept[k]);
        let other = rank_of(ranks, narrow(k));
        if kind == STRICT {
            rank = rank.max(other.saturating_add(1));
        } else if kind > 0 {
            rank = rank.max(other);
        }
    }
    rank
}

/// Lifts each rank as its steps ask. Whether one was lifted.
fn lift(kinds: &Graph, kept: &[u32], ranks: &mut [u32]) -> bool {
    let mut is_lifted = false;
    for k in 0..ranks.len() {
        let own = ranks[k];
        let rank = rank_by_steps(kinds, kept, ranks, rank_of(kept, narrow(k)), own);
        if rank != own {
            ranks[k] = rank;
            is_lifted = true;
        }
    }
    is_lifted
}

/// Ranks of the members of a consistent set, which respect the steps between them.
fn ranks_within(
    alloc: Global,
    kinds: &Graph,
    kept: &[u32],
    looks: &mut Looks,
) -> Result<Vec<u32>, NoMemory>
    ensures { IfOk result (λ _. HasLooked looks.old looks.new) }
{
    let mut ranks = Vec::new(alloc);
    ranks.resize(kept.len(), 0)?;
    for _turn in 0..kinds.count().saturating_add(1) {
        if !looks.take() || !lift(kinds, kept, ranks.as_mut_slice()) {
            return Ok(ranks);
        }
    }
    Ok(ranks)
}

/// The consistent set of those in a list that go with the ones before them.
pub(crate) fn consistent_set(
    alloc: Global,
    kinds: &Graph,
    list: &[u32],
    looks: &mut Looks,
) -> Result<RankedSet, NoMemory>
    ensures { IfOk result (λ _. HasLooked looks.old looks.new) }
{
    let within = greedy(alloc, kinds, list, looks)?;
    let kept = members(alloc, within.as_slice())?;
    let ranks = ranks_within(alloc, kinds, kept.as_slice(), looks)?;
    Ok(RankedSet { kept, ranks })
}
