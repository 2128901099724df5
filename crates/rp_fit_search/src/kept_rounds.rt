//! Weighted groups of observations by a linear program: as much of the observations as the groups allow, where groups
//! that are passed by its point are added, until none is found (Houtman and Maks 1985; Ford and Fulkerson 1958).
ghost use Rattle.std.specs.Prelude.{IfOk};
ghost use Rattle.rp_fit_search.specs.Looked.{HasLooked};

use crate::cheapest::{Sought, cheapest_closed_walk};
use crate::graph::{Graph, narrow};
use crate::kept_groups::{allowed_of, close_all, contradicts_all, group};
use crate::kinds::STRICT;
use crate::looks::Looks;
use crate::order::rank_of;
use crate::shortest::is_closed;
use rp_farkas::{Entry, Pair};
use rp_fit::{Group, GroupKind};
use rp_num::{NoMemory, Seq};
use rp_whole_tableau::Grown;
use std::alloc::Global;

/// The most rounds of a search.
const MOST_ROUNDS: u32 = 64;

/// The most groups of a program. Its tableau has a row for each.
const MOST_GROUPS: usize = 512;

/// What a program of groups shows: their weights over `den`, and how much each observation lacks of `den`.
#[derive(Drop)]
pub(crate) struct Weighing {
    pub(crate) den: u32,
    weights: Vec<u64>,
    pub(crate) lacks: Vec<u32>,
}

/// Whether an observation is a member.
fn is_member(members: &[u32], s: u32) -> bool {
    for member in members {
        if *member == s {
            return true;
        }
    }
    false
}

/// The groups that have an observation, by their numbers.
fn groups_of(alloc: Global, groups: &[Group], s: u32) -> Result<Vec<u32>, NoMemory> {
    let mut numbers = Vec::new(alloc);
    for k in 0..groups.len() {
        if is_member(groups[k].members.as_slice(), s) {
            numbers.push(narrow(k))?;
        }
    }
    Ok(numbers)
}

/// How many observations each group allows.
fn sides(alloc: Global, groups: &[Group]) -> Result<Vec<u64>, NoMemory> {
    let mut sides = Vec::new(alloc);
    for k in 0..groups.len() {
        sides.push(u64::from(allowed_of(&groups[k])))?;
    }
    Ok(sides)
}

/// The program of a row for each group and a column for each of so many observations.
fn program(alloc: Global, groups: &[Group], count: u32) -> Result<Grown, NoMemory> {
    let sides = sides(alloc, groups)?;
    let mut program = Grown::of_sides(alloc, sides.as_slice())?;
    for s in 0..count {
        let column = groups_of(alloc, groups, s)?;
        program.add(alloc, column.as_slice())?;
    }
    Ok(program)
}

/// How much each of so many observations lacks of a denominator at a point.
fn lacks(alloc: Global, den: u32, count: u32, point: &[Entry]) -> Result<Vec<u32>, NoMemory> {
    let mut lacks = Vec::new(alloc);
    lacks.resize(count as usize, den)?;
    for entry in point {
        let place = entry.at as usize;
        if place < lacks.len() {
            let much = u32::try_from(entry.value).unwrap_or(u32::MAX);
            lacks[place] = den.saturating_sub(much);
        }
    }
    Ok(lacks)
}

/// Solves the program of these groups, where a look for each is left. None where none is, where there are too many or
/// where a number passes its width.
fn weighed(
    alloc: Global,
    groups: &[Group],
    count: u32,
    looks: &mut Looks,
) -> Result<Option<Weighing>, NoMemory>
    ensures { IfOk result (λ _. HasLooked looks.old looks.new) }
{
    if groups.len() > MOST_GROUPS || !looks.take_many(groups.len() as u64) {
        return Ok(None);
    }
    let mut program = program(alloc, groups, count)?;
    if !program.solve(alloc, u64::MAX)? {
        return Ok(None);
    }
    let Some(Pair { den, y, x }) = program.pair(alloc)? else {
        return Ok(None);
    };
    let Ok(den) = u32::try_from(den) else {
        return Ok(None);
    };
    let lacks = lacks(alloc, den, count, y.as_slice())?;
    Ok(Some(Weighing {
        den,
        weights: x.into_vec(),
        lacks,
    }))
}

/// A group with another weight.
fn with_weight(alloc: Global, group: &Group, weight: u32) -> Result<Group, NoMemory> {
    Ok(Group {
        weight,
        kind: group.kind,
        members: Seq::from_vec(Vec::from_slice(alloc, group.members.as_slice())?),
    })
}

impl Weighing {
    /// The weight of a group by its number.
    fn weight_of(&self, k: usize) -> u32 {
        match self.weights.get(k) {
            Some(weight) => u32::try_from(*weight).unwrap_or(u32::MAX),
            None => 0,
        }
    }

    /// The groups that have some weight.
    pub(crate) fn weighted(&self, alloc: Global, groups: &[Group]) -> Result<Vec<Group>, NoMemory> {
        let mut weighted = Vec::new(alloc);
        for k in 0..groups.len() {
            let weight = self.weight_of(k);
            if weight > 0 {
                weighted.push(with_weight(alloc, &groups[k], weight)?)?;
            }
        }
        Ok(weighted)
    }

    /// The length of each step: how much the observation lacks to which it leads.
    fn lengths(&self, alloc: Global) -> Result<Graph, NoMemory> {
        let mut lengths = Graph::blank(alloc, narrow(self.lacks.len()))?;
        for t in 0..self.lacks.len() {
            lengths.set_to(narrow(t), u64::from(self.lacks[t]));
        }
        Ok(lengths)
    }

    /// How much there is of these observations together.
    fn much_of(&self, members: &[u32]) -> u64 {
        let mut much: u64 = 0;
        for s in members {
            let lack = rank_of(self.lacks.as_slice(), *s);
            much = much.saturating_add(u64::from(self.den.saturating_sub(lack)));
        }
        much
    }

    /// The observation that contradicts each member and lacks least, where one lacks not all.
    fn next_member(&self, kinds: &Graph, members: &[u32]) -> Option<u32> {
        let mut least = self.den;
        let mut found = None;
        for t in 0..narrow(self.lacks.len()) {
            let lack = rank_of(self.lacks.as_slice(), t);
            if lack < least && contradicts_all(kinds, members, t) {
                least = lack;
                found = Some(t);
            }
        }
        found
    }

    /// Observations that contradict each other two by two, from `s` on, those first that lack least.
    fn contradicting(&self, alloc: Global, kinds: &Graph, s: u32) -> Result<Vec<u32>, NoMemory> {
        let mut members = vec![in alloc; s]?;
        for _ in 1..self.lacks.len() {
            let Some(t) = self.next_member(kinds, members.as_slice()) else {
                return Ok(members);
            };
            members.push(t)?;
        }
        Ok(members)
    }
}

/// Adds a group of a kind, and closes off its members.
fn add(
    groups: &mut Vec<Group>,
    closed: &mut [bool],
    kind: GroupKind,
    members: Vec<u32>,
) -> Result<(), NoMemory> {
    close_all(closed, members.as_slice());
    groups.push(group(kind, members))?;
    Ok(())
}

/// Adds groups of observations that contradict each other, of which there is more than the denominator.
fn add_heavy(
    alloc: Global,
    kinds: &Graph,
    weighing: &Weighing,
    groups: &mut Vec<Group>,
    looks: &mut Looks,
) -> Result<(), NoMemory>
    ensures { IfOk result (λ _. HasLooked looks.old looks.new) }
{
    let mut closed = Vec::new(alloc);
    closed.resize(kinds.count() as usize, false)?;
    for s in 0..kinds.count() {
        if !is_closed(closed.as_slice(), s) && looks.take() {
            let members = weighing.contradicting(alloc, kinds, s)?;
            if weighing.much_of(members.as_slice()) > u64::from(weighing.den) {
                add(groups, closed.as_mut_slice(), GroupKind::Pairs, members)?;
            }
        }
    }
    Ok(())
}

/// Adds violations whose observations lack less than the denominator together.
fn add_light(
    alloc: Global,
    kinds: &Graph,
    weighing: &Weighing,
    groups: &mut Vec<Group>,
    looks: &mut Looks,
) -> Result<(), NoMemory>
    ensures { IfOk result (λ _. HasLooked looks.old looks.new) }
{
    let lengths = weighing.lengths(alloc)?;
    let mut closed = Vec::new(alloc);
    closed.resize(kinds.count() as usize, false)?;
    let none = Vec::new(alloc);
    for s in 0..kinds.count() {
        if !is_closed(closed.as_slice(), s) {
            let sought = Sought {
                start: s,
                first: STRICT,
                below: u64::from(weighing.den),
            };
            if let Some(walk) = cheapest_closed_walk(
                alloc,
                kinds,
                &lengths,
                sought,
                none.as_slice(),
                looks,
            )? {
                add(groups, closed.as_mut_slice(), GroupKind::Cycle, walk)?;
            }
        }
    }
    Ok(())
}

/// The last weighing of the rounds that begin with these groups, where there is one. `groups` then has those that were
/// weighed first.
pub(crate) fn kept_rounds(
    alloc: Global,
    kinds: &Graph,
    groups: &mut Vec<Group>,
    looks: &mut Looks,
) -> Result<Option<Weighing>, NoMemory>
    ensures { IfOk result (λ _. HasLooked looks.old looks.new) }
{
    let mut last = None;
    for _round in 0..MOST_ROUNDS {
        let Some(weighing) = weighed(alloc, groups.as_slice(), kinds.count(), looks)? else {
            return Ok(last);
        };
        let before = groups.len();
        add_heavy(alloc, kinds, &weighing, groups, looks)?;
        if groups.len() == before {
            add_light(alloc, kinds, &weighing, groups, looks)?;
        }
        let is_last = groups.len() == before;
        last = Some(weighing);
        if is_last {
            return Ok(last);
        }
    }
    Ok(last)
}
