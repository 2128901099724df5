//! The check of evidence on the most observations that are consistent with each other.
ghost use Rattle.std.specs.Prelude.{◌<◌, ◌≤◌, IfOk, Ok, length};
ghost use Rattle.rp_fit.specs.KeptEvidence.{ProvesKept};
ghost use Rattle.rp_check_fit.specs.KeptFailure.{BoundFails, GroupsFail, KeptFails, SetFails};
ghost use Rattle.rp_evidence.specs.Clauses.{Unless};
ghost use Rattle.rp_table.specs.Cost.{cost_of};
ghost use Rattle.rp_table.specs.Tables.{records_of};

use crate::kept_bound::check_bound;
use crate::kept_groups::check_groups;
use crate::kept_set::check_set;
use rp_clauses::input::Input;
use rp_evidence::{Failure, Reason, fails};
use rp_fit::KeptPart;

/// Checks evidence on the most observations that are consistent.
pub fn check_kept(input: &Input<'_>, part: &KeptPart) -> Result<(), Failure>
    ensures first { KeptFails (records_of input.now.table.now) (cost_of input.now.table.now)
        part.now result }
    ensures proves { IfOk result (λ done. ProvesKept (records_of input.now.table.now)
        (cost_of input.now.table.now) part.now) }
{
    check_clauses(input, part)
}

/// Checks the clauses on the most observations that are consistent, one after the other.
fn check_clauses(input: &Input<'_>, part: &KeptPart) -> Result<(), Failure>
    ensures { KeptFails (records_of input.now.table.now) (cost_of input.now.table.now)
        part.now result }
{
    if part.den == 0 {
        return fails(Reason::Number, 0);
    }
    check_kept_set(input, part)?;
    check_all_groups(input, part)?;
    check_most(input, part)?;
    check_enough(part)
}

/// Checks the kept observations with their ranks.
fn check_kept_set(input: &Input<'_>, part: &KeptPart) -> Result<(), Failure>
    ensures { SetFails (records_of input.now.table.now) (cost_of input.now.table.now)
        part.now.kept part.now.ranks result }
{
    check_set(input, part.kept.as_slice(), part.ranks.as_slice())
}

/// Checks the groups.
fn check_all_groups(input: &Input<'_>, part: &KeptPart) -> Result<(), Failure>
    ensures { GroupsFail (records_of input.now.table.now) (cost_of input.now.table.now)
        part.now.groups result }
{
    check_groups(input, part.groups.as_slice())
}

/// Checks the bound by the groups.
fn check_most(input: &Input<'_>, part: &KeptPart) -> Result<(), Failure>
    requires den { 0 < part.now.den }
    requires groups { GroupsFail (records_of input.now.table.now) (cost_of input.now.table.now)
        part.now.groups (Ok tt) }
    ensures { BoundFails (records_of input.now.table.now) part.now.den part.now.groups
        part.now.most result }
{
    check_bound(input, part.den, part.groups.as_slice(), part.most)
}

/// Checks that no more observations are kept than the bound.
fn check_enough(part: &KeptPart) -> Result<(), Failure>
    ensures { Unless (length part.now.kept ≤ part.now.most) Reason.Least 0 result }
{
    if part.kept.as_slice().len() > part.most as usize {
        return fails(Reason::Least, 0);
    }
    Ok(())
}
