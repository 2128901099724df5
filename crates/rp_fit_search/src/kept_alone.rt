//! Evidence that needs no search: the first observation alone, and each observation as a group.
ghost use Rattle.std.specs.Prelude.{◌≡◌, IfOk, Ok};
ghost use Rattle.rp_check_fit.specs.KeptFailure.{KeptFails};
ghost use Rattle.rp_fit_search.specs.InnerAlone.{AreAlone, group_of};
ghost use Rattle.rp_table.specs.Cost.{cost_of};
ghost use Rattle.rp_table.specs.Tables.{records_of};

use rp_clauses::input::Input;
use rp_fit::{Group, GroupKind, KeptPart};
use rp_num::{NoMemory, Seq};
use std::alloc::Global;

/// An observation as a group.
pub(crate) fn alone(alloc: Global, s: u32) -> Result<Group, NoMemory>
    ensures { IfOk result (λ group. group ≡ group_of s) }
{
    let members = vec![in alloc; s]?;
    Ok(Group {
        weight: 1,
        kind: GroupKind::Pairs,
        members: Seq::from_vec(members),
    })
}

/// Each observation as a group.
fn each_alone(alloc: Global, n: u32) -> Result<Vec<Group>, NoMemory>
    ensures { IfOk result (λ groups. AreAlone n groups.items) }
{
    let mut groups = Vec::new(alloc);
    for s in 0..n {
        groups.push(alone(alloc, s)?)?;
    }
    Ok(groups)
}

/// The first observation, which is consistent, and each observation as a group. It passes the check.
pub(crate) fn kept_alone(alloc: Global, input: &Input<'_>) -> Result<KeptPart, NoMemory>
    ensures { IfOk result (λ part. KeptFails (records_of input.now.table.now)
        (cost_of input.now.table.now) part (Ok tt)) }
{
    let n = input.n();
    let groups = each_alone(alloc, n)?;
    let kept = vec![in alloc; 0]?;
    let ranks = vec![in alloc; 0]?;
    Ok(KeptPart {
        kept: Seq::from_vec(kept),
        ranks: Seq::from_vec(ranks),
        den: 1,
        groups: Seq::from_vec(groups),
        most: n,
    })
}
