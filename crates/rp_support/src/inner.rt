//! One supporting demand.
ghost use Rattle.std.specs.Prelude.{◌≡◌, ◌<◌, ◌↔◌, ℕ, IfOk, IfSome, IsTrue, length, slice_index};
ghost use Rattle.rp_evidence.specs.Count.{AreCounts};
ghost use Rattle.rp_evidence.specs.Demand.{Buys, IsInnerDemand};
ghost use Rattle.rp_evidence.specs.DemandEvidence.{bundle_of};
ghost use Rattle.rp_evidence.specs.Preference.{IsWeakAt};
ghost use Rattle.rp_table.specs.Tables.{goods_of, records_of};
ghost use Rattle.rp_evidence.specs.InnerBudget.{input_of, new_budget};
ghost use Rattle.rp_support.specs.InnerStart.{IsBetter, IsStart, inner_numerator};
ghost use Rattle.rp_pref.specs.Closure.{IsWeakClosureOf};

use rp_evidence::Point;
use rp_num::{NoMemory, Seq};
use rp_pref::Closure;
use rp_table::NewBudget;
use std::alloc::Global;

/// The inner demand, over the price of good 0.
pub fn inner(alloc: Global, budget: &NewBudget, closure: &Closure) -> Result<Point, NoMemory>
    requires { IsWeakClosureOf closure.now (input_of budget.now.at) }
    ensures goods { IfOk result (λ point. length point.num ≡ goods_of budget.now.at.table.now) }
    ensures inner { IfOk result (λ point. IsInnerDemand (input_of budget.now.at)
        (new_budget budget.now) (bundle_of point)) }
{
    prove!(budget.at.table.goods() > 0);
    let counts = counts(alloc, budget, closure)?;
    let start = start(budget, &counts);
    let num = numerators(alloc, budget, start)?;
    Ok(Point {
        den: u64::from(budget.at.price(0)),
        num: Seq::from_vec(num),
    })
}

/// The counts of the observations.
fn counts(alloc: Global, budget: &NewBudget, closure: &Closure) -> Result<Vec<u32>, NoMemory>
    requires { IsWeakClosureOf closure.now (input_of budget.now.at) }
    ensures { IfOk result (λ counts.
        AreCounts (input_of budget.now.at).n (IsWeakAt (input_of budget.now.at).cost 1 1)
        counts.items) }
{
    let mut counts = Vec::new(alloc);
    for s in 0..budget.at.table.n() {
        counts.push(closure.count(s))?;
    }
    Ok(counts)
}

/// Of the observations whose bundles the budget buys one of the greatest count, of these one of the
/// least cost at the new prices, of these the first.
fn start(budget: &NewBudget, counts: &[u32]) -> Option<u32>
    requires { length counts.now ≡ records_of budget.now.at.table.now }
    ensures { IsStart (input_of budget.now.at) (new_budget budget.now) counts.now result }
{
    let mut best = None;
    for s in 0..budget.at.table.n() {
        if is_better(budget, counts, s, best) {
            best = Some(s);
        }
    }
    best
}

/// Whether the budget buys the bundle of `s`, and `s` comes before the best one so far.
fn is_better(budget: &NewBudget, counts: &[u32], s: u32, best: Option<u32>) -> bool
    requires each { length counts.now ≡ records_of budget.now.at.table.now }
    requires observed { s < records_of budget.now.at.table.now }
    requires earlier { IfSome best (λ b. b < records_of budget.now.at.table.now) }
    ensures { IsTrue result ↔ IsBetter (input_of budget.now.at)
        (new_budget budget.now) counts.now s best }
{
    let spent = budget.at.spending(s);
    if spent > budget.m {
        return false;
    }
    match best {
        None => true,
        Some(b) => {
            let (count, other) = (counts[s as usize], counts[b as usize]);
            count > other || count == other && spent < budget.at.spending(b)
        }
    }
}

/// What the inner demand has of each good.
fn numerators(alloc: Global, budget: &NewBudget, start: Option<u32>) -> Result<Vec<u64>, NoMemory>
    requires { IfSome start (λ s. (s < records_of budget.now.at.table.now)
        × Buys (input_of budget.now.at) (new_budget budget.now) s) }
    ensures goods { IfOk result (λ num. length num.items ≡ goods_of budget.now.at.table.now) }
    ensures exact { IfOk result (λ num. (g : ℕ) → g < goods_of budget.now.at.table.now
        → slice_index num.items g
        ≡ inner_numerator (input_of budget.now.at) (new_budget budget.now) start g) }
{
    let mut num = Vec::new(alloc);
    for g in 0..budget.at.table.goods() {
        num.push(numerator(budget, start, g))?;
    }
    Ok(num)
}

/// What the inner demand has of good `g`.
fn numerator(budget: &NewBudget, start: Option<u32>, g: u32) -> u64
    requires good { g < goods_of budget.now.at.table.now }
    requires start { IfSome start (λ s. (s < records_of budget.now.at.table.now)
        × Buys (input_of budget.now.at) (new_budget budget.now) s) }
    ensures { result
        ≡ inner_numerator (input_of budget.now.at) (new_budget budget.now) start g }
{
    match start {
        Some(s) => {
            let rest = if g == 0 {
                budget.m - budget.at.spending(s)
            } else {
                0
            };
            u64::from(budget.at.price(0)) * u64::from(budget.at.table.quantity(s, g)) + rest
        }
        None => if g == 0 { budget.m } else { 0 },
    }
}
