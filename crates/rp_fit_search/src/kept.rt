//! The search for the most observations that are consistent.
ghost use Rattle.std.specs.Prelude.{IfOk, Ok};
ghost use Rattle.rp_check_fit.specs.KeptFailure.{KeptFails};
ghost use Rattle.rp_fit.specs.KeptEvidence.{ProvesKept};
ghost use Rattle.rp_fit_search.specs.Looked.{HasLooked};
ghost use Rattle.rp_table.specs.Cost.{cost_of};
ghost use Rattle.rp_table.specs.Tables.{records_of};

use crate::graph::narrow;
use crate::kept_alone::kept_alone;
use crate::kept_groups::{allowed_of, groups, with_single_ones};
use crate::kept_rounds::kept_rounds;
use crate::kept_set::{RankedSet, by_contradictions, consistent_set, in_order};
use crate::kinds::kinds;
use crate::looks::Looks;
use rp_check_fit::check_kept;
use rp_clauses::input::Input;
use rp_fit::{Group, KeptPart};
use rp_num::{NoMemory, Seq};
use std::alloc::Global;

/// How many observations groups with weights over `den` allow together.
fn allowed_by(groups: &[Group], den: u32) -> u32 {
    let mut most: u64 = 0;
    for k in 0..groups.len() {
        let allowed = u64::from(allowed_of(&groups[k]));
        most = most.saturating_add(u64::from(groups[k].weight).saturating_mul(allowed));
    }
    u32::try_from(most / u64::from(den.max(1))).unwrap_or(u32::MAX)
}

/// A consistent set, and groups with weights over `den`.
fn part_of(set: RankedSet, den: u32, groups: Vec<Group>) -> KeptPart {
    KeptPart {
        kept: Seq::from_vec(set.kept),
        ranks: Seq::from_vec(set.ranks),
        den,
        most: allowed_by(groups.as_slice(), den),
        groups: Seq::from_vec(groups),
    }
}

/// The set with more observations.
fn larger(one: RankedSet, other: RankedSet) -> RankedSet {
    if other.kept.len() > one.kept.len() {
        other
    } else {
        one
    }
}

/// A consistent set of many observations, and groups that show how many such a set has at most: greedy ones, and those
/// of a linear program where they do not meet. None is looked for whether they pass the check.
fn find(alloc: Global, input: &Input<'_>, looks: &mut Looks) -> Result<KeptPart, NoMemory>
    ensures { IfOk result (λ _. HasLooked looks.old looks.new) }
{
    let kinds = kinds(alloc, input)?;
    let groups = groups(alloc, &kinds, looks)?;
    let list = by_contradictions(alloc, &kinds)?;
    let set = consistent_set(alloc, &kinds, list.as_slice(), looks)?;
    if narrow(set.kept.len()) >= allowed_by(groups.as_slice(), 1) {
        return Ok(part_of(set, 1, groups));
    }
    let mut all = with_single_ones(alloc, groups.as_slice())?;
    let Some(weighing) = kept_rounds(alloc, &kinds, &mut all, looks)? else {
        return Ok(part_of(set, 1, groups));
    };
    let list = in_order(alloc, weighing.lacks.as_slice(), list.as_slice())?;
    let other = consistent_set(alloc, &kinds, list.as_slice(), looks)?;
    let groups = weighing.weighted(alloc, all.as_slice())?;
    Ok(part_of(larger(set, other), weighing.den, groups))
}

/// A consistent set of many observations, with groups that show how many such a set has at most. What is given passes
/// the check, whatever was found.
pub fn search_kept(
    alloc: Global,
    input: &Input<'_>,
    looks: &mut Looks,
) -> Result<KeptPart, NoMemory>
    ensures accepted { IfOk result (λ part. KeptFails (records_of input.now.table.now)
        (cost_of input.now.table.now) part (Ok tt)) }
    ensures proves { IfOk result (ProvesKept (records_of input.now.table.now)
        (cost_of input.now.table.now)) }
    ensures looks { IfOk result (λ _. HasLooked looks.old looks.new) }
{
    let found = find(alloc, input, looks)?;
    let plain = kept_alone(alloc, input)?;
    match check_kept(input, &found) {
        Ok(()) => Ok(found),
        Err(_) => Ok(plain),
    }
}
