//! The clauses of the bound on the observations of consistent sets.
ghost use Rattle.std.specs.Prelude.{◌≡◌, ◌*◌, ◌^◌, ◌<◌, ◌≤◌, ℕ, Ok, if◌then◌else◌, length};
ghost use Rattle.rp_fit.specs.Groups.{allowed_by, allowed_of, is_among, weight_on};
ghost use Rattle.rp_check_fit.specs.KeptFailure.{BoundFails, GroupsFail, group_at};
ghost use Rattle.rp_evidence.specs.Clauses.{FirstUnless};
ghost use Rattle.rp_limits.specs.declared.table.TheConstants.{RECORDS};
ghost use Rattle.rp_table.specs.Cost.{cost_of};
ghost use Rattle.rp_table.specs.Tables.{records_of};

use rp_clauses::input::Input;
use rp_evidence::{Failure, Reason, fails};
use rp_fit::{Group, GroupKind};
use rp_limits::table::RECORDS;

/// Checks the weights on each observation, and that the bound is what the groups allow.
pub(crate) fn check_bound(
    input: &Input<'_>,
    den: u32,
    groups: &[Group],
    most: u32,
) -> Result<(), Failure>
    requires den { 0 < den }
    requires groups { GroupsFail (records_of input.now.table.now) (cost_of input.now.table.now)
        groups.now (Ok tt) }
    ensures { BoundFails (records_of input.now.table.now) den groups.now most result }
{
    let n = input.n();
    prove!(n <= RECORDS);
    check_weights(input, den, groups)?;
    if allowed_by(groups) / u128::from(den) != u128::from(most) {
        return fails(Reason::Bound, 0);
    }
    Ok(())
}

/// Checks that the weights on each observation are the denominator or more.
fn check_weights(input: &Input<'_>, den: u32, groups: &[Group]) -> Result<(), Failure>
    ensures { FirstUnless (records_of input.now.table.now)
        (λ s. den ≤ weight_on groups.now s) Reason.Dual result }
{
    for s in 0..input.n() {
        if weight_on(groups, s) < u128::from(den) {
            return fails(Reason::Dual, s as usize + 1);
        }
    }
    Ok(())
}

/// The weights of the groups that have observation `s`.
fn weight_on(groups: &[Group], s: u32) -> u128
    ensures { result ≡ weight_on groups.now s }
{
    let mut weight = 0;
    for k in 0..groups.len() {
        weight += weight_at(groups, k, s);
    }
    weight
}

/// The weight of group `k` where it has observation `s`, else 0.
fn weight_at(groups: &[Group], k: usize, s: u32) -> u128
    requires { k < length groups.now }
    ensures value { result ≡ (if is_among (group_at groups.now k).members s
        then (group_at groups.now k).weight else 0) }
    ensures small { result ≤ 2 ^ 32 }
{
    let group = &groups[k];
    weight_where(is_among(group.members.as_slice(), s), group.weight)
}

/// Whether observation `s` is among the members.
fn is_among(members: &[u32], s: u32) -> bool
    ensures { result ≡ is_among members.now s }
{
    members.contains(&s)
}

/// The weight where the observation is there, else 0.
fn weight_where(there: bool, weight: u32) -> u128
    ensures value { result ≡ (if there then weight else 0) }
    ensures small { result ≤ 2 ^ 32 }
{
    if there { u128::from(weight) } else { 0 }
}

/// What the groups allow a consistent set, each times its weight.
fn allowed_by(groups: &[Group]) -> u128
    requires { (k : ℕ) → k < length groups.now
        → allowed_of (group_at groups.now k).kind (group_at groups.now k).members ≤ RECORDS }
    ensures { result ≡ allowed_by groups.now }
{
    let mut sum = 0;
    for k in 0..groups.len() {
        sum += weighted(groups, k);
    }
    sum
}

/// What group `k` allows a consistent set, times its weight.
fn weighted(groups: &[Group], k: usize) -> u128
    requires place { k < length groups.now }
    requires few { allowed_of (group_at groups.now k).kind (group_at groups.now k).members ≤ RECORDS }
    ensures value { result ≡ (group_at groups.now k).weight
        * allowed_of (group_at groups.now k).kind (group_at groups.now k).members }
    ensures small { result ≤ 2 ^ 41 }
{
    let group = &groups[k];
    product(
        group.weight,
        allowed_of(group.kind, group.members.as_slice()),
    )
}

/// A weight times a number of observations.
fn product(weight: u32, allowed: u64) -> u128
    requires { allowed ≤ RECORDS }
    ensures value { result ≡ weight * allowed }
    ensures small { result ≤ 2 ^ 41 }
{
    u128::from(weight) * u128::from(allowed)
}

/// How many of these observations a consistent set has at most.
fn allowed_of(kind: GroupKind, members: &[u32]) -> u64
    ensures { result ≡ allowed_of kind members.now }
{
    match kind {
        GroupKind::Pairs => 1,
        GroupKind::Cycle => members.len().saturating_sub(2) as u64,
    }
}
