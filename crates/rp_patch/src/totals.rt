//! The counts of each group together, and what these sums have in common.
ghost use Rattle.std.specs.Prelude.{◌≡◌, ◌<◌, ◌≤◌, ◌^◌, IfErr, IfOk};
ghost use Rattle.rp_patch.specs.Apportionment.{AreGrouped, IsLeastCommonMultiple, PassesTotalAt};
ghost use Rattle.rp_patch.specs.Apportionment.{counts_in, grouped, groups_in};
ghost use Rattle.rp_patch.specs.InnerMultiples.{IsCommon};

use rp_limits::patch::UNITS;
use rp_num::gcd;

/// How many groups there are.
pub fn count_groups(groups: &[u32], counts: &[u64]) -> u32
    requires { AreGrouped groups.now counts.now }
    ensures { result ≡ groups_in groups.now }
{
    groups[groups.len() - 1] + 1
}

/// The counts of group `j` together.
pub fn sum_of(groups: &[u32], counts: &[u64], j: u32) -> u64
    requires grouped { AreGrouped groups.now counts.now }
    requires group { j < groups_in groups.now }
    ensures exact { result ≡ counts_in (grouped groups.now counts.now) j }
    ensures positive { 0 < result }
    ensures few { result < 2 ^ 36 }
{
    let mut sum = 0;
    for i in 0..groups.len() {
        if groups[i] == j {
            sum += counts[i];
        }
    }
    sum
}

/// The least common multiple of the sums of all groups, or the first group with which it is above `UNITS`.
pub fn common_total(groups: &[u32], counts: &[u64]) -> Result<u64, u32>
    requires { AreGrouped groups.now counts.now }
    ensures least { IfOk result
        (IsLeastCommonMultiple (grouped groups.now counts.now) (groups_in groups.now)) }
    ensures small { IfOk result (λ total. total ≤ UNITS) }
    ensures large { IfErr result (PassesTotalAt (grouped groups.now counts.now)) }
{
    let mut total = 1;
    for j in 0..count_groups(groups, counts) {
        let next = common_multiple(total, sum_of(groups, counts, j));
        if next > u128::from(UNITS) {
            return Err(j);
        }
        total = next as u64;
    }
    Ok(total)
}

/// The least common multiple.
fn common_multiple(a: u64, b: u64) -> u128
    requires left { 0 < a }
    requires right { 0 < b }
    ensures { IsCommon a b result }
{
    let (a, b) = (u128::from(a), u128::from(b));
    a / gcd(a, b) * b
}
