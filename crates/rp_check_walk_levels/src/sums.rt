//! What was spent along a walk, and what its next bundles cost.
ghost use Rattle.std.specs.Prelude.{◌≡◌, ◌<◌, ◌≤◌, ◌^◌};
ghost use Rattle.rp_check_walk_levels.specs.InnerSums.{IsShort};
ghost use Rattle.rp_fit.specs.WalkSums.{next_sum, spent_sum};
ghost use Rattle.rp_table.specs.Cost.{cost_of};
ghost use Rattle.rp_table.specs.Tables.{records_of};

use rp_clauses::input::Input;
use rp_limits::table::RECORDS;

/// What was spent where the steps of a walk begin.
pub(crate) fn spent_along(input: &Input<'_>, walk: &[u32]) -> u64
    requires { IsShort (records_of input.now.table.now) walk.now }
    ensures sum { result ≡ spent_sum (cost_of input.now.table.now) walk.now }
    ensures small { result ≤ 2 ^ 60 }
{
    let n = input.n();
    prove!(n <= RECORDS);
    let mut sum = 0;
    for k in 0..walk.len() - 1 {
        sum += input.cost(walk[k], walk[k]);
    }
    sum
}

/// What the next bundles of a walk cost at the prices where its steps begin.
pub(crate) fn next_along(input: &Input<'_>, walk: &[u32]) -> u64
    requires { IsShort (records_of input.now.table.now) walk.now }
    ensures sum { result ≡ next_sum (cost_of input.now.table.now) walk.now }
    ensures small { result ≤ 2 ^ 60 }
{
    let n = input.n();
    prove!(n <= RECORDS);
    let mut sum = 0;
    for k in 0..walk.len() - 1 {
        sum += input.cost(walk[k], walk[k + 1]);
    }
    sum
}
