//! What a closed walk gains, and what is spent on it.
ghost use Rattle.std.specs.Prelude.{◌≡◌, ◌+◌, ◌*◌, ◌<◌, ◌≤◌, ◌^◌, length};
ghost use Rattle.rp_pump.specs.InnerWalks.{AreObserved};
ghost use Rattle.rp_fit.specs.WalkSums.{next_sum};
ghost use Rattle.rp_fit.specs.MoneyPump.{walk_spent};
ghost use Rattle.rp_fit.specs.PumpEvidence.{IsWeakCycle};
ghost use Rattle.rp_table.specs.Cost.{cost_at};
ghost use Rattle.rp_limits.specs.declared.table.TheConstants.{RECORDS};

use rp_limits::table::RECORDS;
use rp_table::Costs;

/// What a closed walk of weak steps gains, and what was spent where its steps begin.
pub(crate) fn gained_and_spent(costs: &Costs, walk: &[u32]) -> (u64, u64)
    requires { IsWeakCycle costs.now.n (cost_at costs.now) walk.now }
    ensures spent { result.1 ≡ walk_spent (cost_at costs.now) walk.now }
    ensures gained { result.0 + next_sum (cost_at costs.now) walk.now ≡ result.1 }
    ensures some { 1 ≤ result.1 }
    ensures small { result.1 ≤ RECORDS * 2 ^ 51 }
{
    let n = costs.n();
    prove!(n <= RECORDS);
    let spent = spent_along(costs, walk);
    let gain = spent - swapped_along(costs, walk);
    (gain, spent)
}

/// What was spent where the steps of a walk begin.
fn spent_along(costs: &Costs, walk: &[u32]) -> u64
    requires some { 0 < length walk.now }
    requires few { length walk.now ≤ RECORDS + 1 }
    requires observed { AreObserved costs.now.n walk.now }
    ensures sum { result ≡ walk_spent (cost_at costs.now) walk.now }
    ensures small { result ≤ RECORDS * 2 ^ 51 }
{
    let mut sum = 0;
    for k in 0..walk.len() - 1 {
        sum += costs.cost(walk[k], walk[k]);
    }
    sum
}

/// What the next bundles of a walk cost at the prices where its steps begin.
fn swapped_along(costs: &Costs, walk: &[u32]) -> u64
    requires some { 0 < length walk.now }
    requires few { length walk.now ≤ RECORDS + 1 }
    requires observed { AreObserved costs.now.n walk.now }
    ensures sum { result ≡ next_sum (cost_at costs.now) walk.now }
    ensures small { result ≤ RECORDS * 2 ^ 51 }
{
    let mut sum = 0;
    for k in 0..walk.len() - 1 {
        sum += costs.cost(walk[k], walk[k + 1]);
    }
    sum
}
