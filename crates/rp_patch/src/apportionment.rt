//! Units that stand for counts in groups.
ghost use Rattle.std.specs.Prelude.{◌≡◌, ◌≤◌, IfErr, IfOk, IfSome, length, slice_index};
ghost use Rattle.rp_patch.specs.Apportionment.{AreFilled, AreGrouped, HasShares, SaysWhyNoUnits, grouped};
ghost use Rattle.rp_patch.specs.InnerPortions.{IsSharedTotal};
ghost use Rattle.rp_limits.specs.declared.patch.TheConstants.{UNITS};

use crate::ApportionFault;
use crate::portion::{all_units, portions_of, round_all_up};
use crate::totals::{common_total, count_groups};
use rp_num::Seq;
use std::alloc::Global;

/// The units of each place, and the total of each group.
#[derive(Debug, Drop)]
pub struct Units {
    pub total: u64,
    pub units: Seq<u64>,
}

/// The units that stand for the counts of places in groups, in which the places of each group have the total together:
/// exact, over the least common multiple of the groups' counts, where none are asked for; else that many in each group,
/// by largest remainders (Hamilton's method). Place i is of group `groups[i]` and has the count `counts[i]`.
pub fn apportion(
    alloc: Global,
    groups: &[u32],
    counts: &[u64],
    unit: Option<u32>,
) -> Result<Units, ApportionFault>
    requires grouped { AreGrouped groups.now counts.now }
    requires unit { IfSome unit (λ n. (1 ≤ n) × (n ≤ UNITS)) }
    ensures exact { IfOk result (λ made. HasShares (grouped groups.now counts.now) unit made.total
        (slice_index made.units)) }
    ensures each { IfOk result (λ made. length made.units ≡ length groups.now) }
    ensures within { IfOk result (λ made. (1 ≤ made.total) × (made.total ≤ UNITS)) }
    ensures filled { IfOk result (λ made. AreFilled (grouped groups.now counts.now) made.total
        (slice_index made.units)) }
    ensures refused { IfErr result (SaysWhyNoUnits (grouped groups.now counts.now) unit) }
{
    let total = total_of(groups, counts, unit)?;
    let mut portions = portions_of(alloc, groups, counts, total)?;
    round_all_up(&mut portions, count_groups(groups, counts), total);
    let units = all_units(alloc, portions.as_slice())?;
    Ok(Units {
        total,
        units: Seq::from_vec(units),
    })
}

/// The total of each group.
fn total_of(groups: &[u32], counts: &[u64], unit: Option<u32>) -> Result<u64, ApportionFault>
    requires grouped { AreGrouped groups.now counts.now }
    requires unit { IfSome unit (λ n. (1 ≤ n) × (n ≤ UNITS)) }
    ensures exact { IfOk result (IsSharedTotal (grouped groups.now counts.now) unit) }
    ensures within { IfOk result (λ total. (1 ≤ total) × (total ≤ UNITS)) }
    ensures refused { IfErr result (SaysWhyNoUnits (grouped groups.now counts.now) unit) }
{
    match unit {
        Some(unit) => Ok(u64::from(unit)),
        None => match common_total(groups, counts) {
            Ok(total) => Ok(total),
            Err(group) => Err(ApportionFault::NeedUnit { group }),
        },
    }
}
