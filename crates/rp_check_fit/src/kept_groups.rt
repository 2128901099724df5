//! The clauses of groups of observations of which a consistent set has few.
ghost use Rattle.std.specs.Prelude.{◌+◌, ◌-◌, ◌<◌, ◌↔◌, ℕ, IsTrue, length, slice_index};
ghost use Rattle.rp_fit.specs.Groups.{AllContradict, AreOfKind, Contradict, IsSimpleViolation};
ghost use Rattle.rp_check_fit.specs.InnerGroups.{ContradictsEarlier};
ghost use Rattle.rp_check_fit.specs.KeptFailure.{GroupFails, GroupsFail};
ghost use Rattle.rp_evidence.specs.Garp.{IsViolation};
ghost use Rattle.rp_evidence.specs.Preference.{IsStrict, IsWeak};
ghost use Rattle.rp_table.specs.Cost.{cost_of};
ghost use Rattle.rp_table.specs.Tables.{records_of};

use rp_check_walks::{are_distinct, is_strict, is_weak};
use rp_clauses::input::Input;
use rp_clauses::standard::WHOLE;
use rp_clauses::walk::check_violation;
use rp_evidence::{Failure, Reason, fails};
use rp_fit::{Group, GroupKind};

/// Checks the groups, each in turn.
pub(crate) fn check_groups(input: &Input<'_>, groups: &[Group]) -> Result<(), Failure>
    ensures { GroupsFail (records_of input.now.table.now) (cost_of input.now.table.now)
        groups.now result }
{
    for k in 0..groups.len() {
        check_group(input, groups, k)?;
    }
    Ok(())
}

/// Checks group `k`: some weight, and observations of the kind that they are said to be.
fn check_group(input: &Input<'_>, groups: &[Group], k: usize) -> Result<(), Failure>
    requires { k < length groups.now }
    ensures { GroupFails (records_of input.now.table.now) (cost_of input.now.table.now)
        groups.now k result }
{
    let group = &groups[k];
    if group.weight == 0 {
        return fails(Reason::Number, k + 1);
    }
    if !are_of_kind(input, group.kind, group.members.as_slice()) {
        return fails(Reason::Set, k + 1);
    }
    Ok(())
}

/// Whether observations are of the kind that they are said to be.
fn are_of_kind(input: &Input<'_>, kind: GroupKind, members: &[u32]) -> bool
    ensures { IsTrue result ↔ AreOfKind (records_of input.now.table.now)
        (cost_of input.now.table.now) kind members.now }
{
    match kind {
        GroupKind::Pairs => all_contradict(input, members),
        GroupKind::Cycle => is_simple_violation(input, members),
    }
}

/// Whether each two of these are observations that contradict each other.
fn all_contradict(input: &Input<'_>, members: &[u32]) -> bool
    ensures { IsTrue result ↔ AllContradict (records_of input.now.table.now)
        (cost_of input.now.table.now) members.now }
{
    for j in 0..members.len() {
        if members[j] >= input.n() || !contradicts_earlier(input, members, j) {
            return false;
        }
    }
    true
}

/// Whether the member at place `j` contradicts each one before it.
fn contradicts_earlier(input: &Input<'_>, members: &[u32], j: usize) -> bool
    requires place { j < length members.now }
    requires observed { (k : ℕ) → k < j + 1
        → slice_index members.now k < records_of input.now.table.now }
    ensures { IsTrue result ↔ ContradictsEarlier (cost_of input.now.table.now) members.now j }
{
    for i in 0..j {
        if !contradict(input, members[i], members[j]) {
            return false;
        }
    }
    true
}

/// Whether two observations contradict each other.
fn contradict(input: &Input<'_>, s: u32, t: u32) -> bool
    requires first { s < records_of input.now.table.now }
    requires second { t < records_of input.now.table.now }
    ensures { IsTrue result ↔ Contradict (cost_of input.now.table.now) s t }
{
    (is_weak(input, s, t) && is_strict(input, t, s))
        || (is_weak(input, t, s) && is_strict(input, s, t))
}

/// Whether these are a violation through no observation twice.
fn is_simple_violation(input: &Input<'_>, walk: &[u32]) -> bool
    ensures { IsTrue result ↔ IsSimpleViolation (records_of input.now.table.now)
        (cost_of input.now.table.now) walk.now }
{
    walk.len() <= input.n() as usize + 1 && is_violation(input, walk) && are_distinct(walk)
}

/// Whether these are a violation.
fn is_violation(input: &Input<'_>, walk: &[u32]) -> bool
    ensures { IsTrue result ↔ IsViolation (records_of input.now.table.now)
        (IsWeak (cost_of input.now.table.now)) (IsStrict (cost_of input.now.table.now))
        walk.now }
{
    check_violation(input, WHOLE, walk).is_ok()
}
