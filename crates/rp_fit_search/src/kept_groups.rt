//! Groups of observations of which a consistent set has few.
ghost use Rattle.std.specs.Prelude.{IfOk};
ghost use Rattle.rp_fit_search.specs.Looked.{HasLooked};

use crate::graph::{Graph, narrow};
use crate::kept_alone::alone;
use crate::kinds::STRICT;
use crate::looks::Looks;
use crate::shortest::{is_closed, shortest_closed_walk};
use rp_fit::{Group, GroupKind};
use rp_num::{NoMemory, Seq};
use std::alloc::Global;

/// Whether two observations contradict each other: a weak step leads one way and a strict one the other.
pub(crate) fn contradict(kinds: &Graph, s: u32, t: u32) -> bool {
    let there = kinds.at(s, t);
    let back = kinds.at(t, s);
    there > 0 && back > 0 && (there == STRICT || back == STRICT)
}

/// Whether an observation contradicts each of these.
pub(crate) fn contradicts_all(kinds: &Graph, members: &[u32], t: u32) -> bool {
    for s in members {
        if !contradict(kinds, *s, t) {
            return false;
        }
    }
    true
}

/// How many observations a group allows.
pub(crate) fn allowed_of(group: &Group) -> u32 {
    match group.kind {
        GroupKind::Pairs => 1,
        GroupKind::Cycle => u32::try_from(group.members.as_slice().len())
            .unwrap_or(u32::MAX)
            .saturating_sub(2),
    }
}

/// Observations that contradict each other two by two, from `s` on, of those that no group has yet.
fn contradicting(
    alloc: Global,
    kinds: &Graph,
    s: u32,
    closed: &[bool],
) -> Result<Vec<u32>, NoMemory> {
    let mut members = Vec::new(alloc);
    members.push(s)?;
    for t in s.saturating_add(1)..kinds.count() {
        if !is_closed(closed, t) && contradicts_all(kinds, members.as_slice(), t) {
            members.push(t)?;
        }
    }
    Ok(members)
}

/// Closes off an observation.
fn close(closed: &mut [bool], s: u32) {
    if (s as usize) < closed.len() {
        closed[s as usize] = true;
    }
}

/// Closes off the members of a group.
pub(crate) fn close_all(closed: &mut [bool], members: &[u32]) {
    for k in 0..members.len() {
        close(closed, members[k]);
    }
}

/// A group of weight 1.
pub(crate) fn group(kind: GroupKind, members: Vec<u32>) -> Group {
    Group {
        weight: 1,
        kind,
        members: Seq::from_vec(members),
    }
}

/// Adds groups of observations that contradict each other two by two.
fn add_contradicting(
    alloc: Global,
    kinds: &Graph,
    groups: &mut Vec<Group>,
    closed: &mut [bool],
    looks: &mut Looks,
) -> Result<(), NoMemory>
    ensures { IfOk result (λ _. HasLooked looks.old looks.new) }
{
    for s in 0..kinds.count() {
        if !is_closed(closed, s) && looks.take() {
            let members = contradicting(alloc, kinds, s, closed)?;
            if members.len() > 1 {
                close_all(closed, members.as_slice());
                groups.push(group(GroupKind::Pairs, members))?;
            }
        }
    }
    Ok(())
}

/// Adds violations through observations that no group has yet.
fn add_cycles(
    alloc: Global,
    kinds: &Graph,
    groups: &mut Vec<Group>,
    closed: &mut [bool],
    looks: &mut Looks,
) -> Result<(), NoMemory>
    ensures { IfOk result (λ _. HasLooked looks.old looks.new) }
{
    for s in 0..kinds.count() {
        if !is_closed(closed, s) {
            if let Some(walk) = shortest_closed_walk(alloc, kinds, s, STRICT, closed, looks)? {
                close_all(closed, walk.as_slice());
                groups.push(group(GroupKind::Cycle, walk))?;
            }
        }
    }
    Ok(())
}

/// Adds each observation that no group has yet.
fn add_others(alloc: Global, groups: &mut Vec<Group>, closed: &[bool]) -> Result<(), NoMemory> {
    for s in 0..closed.len() {
        if !closed[s] {
            groups.push(alone(alloc, narrow(s))?)?;
        }
    }
    Ok(())
}

/// Adds each observation of a violation.
fn add_single_ones(alloc: Global, groups: &mut Vec<Group>, walk: &[u32]) -> Result<(), NoMemory> {
    for k in 1..walk.len() {
        groups.push(alone(alloc, walk[k])?)?;
    }
    Ok(())
}

/// These groups with weight 1, and each observation of a violation as one more.
pub(crate) fn with_single_ones(alloc: Global, groups: &[Group]) -> Result<Vec<Group>, NoMemory> {
    let mut all = Vec::new(alloc);
    for k in 0..groups.len() {
        let members = groups[k].members.as_slice();
        if groups[k].kind == GroupKind::Cycle {
            add_single_ones(alloc, &mut all, members)?;
        }
        all.push(group(groups[k].kind, Vec::from_slice(alloc, members)?))?;
    }
    Ok(all)
}

/// Groups of weight 1, each observation in one: those that contradict each other, then violations, then single ones.
pub(crate) fn groups(
    alloc: Global,
    kinds: &Graph,
    looks: &mut Looks,
) -> Result<Vec<Group>, NoMemory>
    ensures { IfOk result (λ _. HasLooked looks.old looks.new) }
{
    let mut groups = Vec::new(alloc);
    let mut closed = Vec::new(alloc);
    closed.resize(kinds.count() as usize, false)?;
    add_contradicting(alloc, kinds, &mut groups, closed.as_mut_slice(), looks)?;
    add_cycles(alloc, kinds, &mut groups, closed.as_mut_slice(), looks)?;
    add_others(alloc, &mut groups, closed.as_slice())?;
    Ok(groups)
}
