//! The observations below a new budget, as lists.
ghost use Rattle.std.specs.Prelude.{◌≡◌, ◌<◌, ◌↔◌, ℕ, All, Contains, IfOk, IsTrue, length};
ghost use Rattle.rp_evidence.specs.Demand.{Buys, IsStrictStart};
ghost use Rattle.rp_evidence.specs.DemandPrograms.{ListsBelow, ListsStrictlyBelow};
ghost use Rattle.rp_evidence.specs.Preference.{IsStrict};
ghost use Rattle.rp_pref.specs.Closure.{IsWeakClosureOf};
ghost use Rattle.rp_table.specs.Cost.{cost_of};
ghost use Rattle.rp_table.specs.Tables.{records_of};
ghost use Rattle.rp_evidence.specs.InnerBudget.{input_of, new_budget};
ghost use Rattle.rp_support.specs.InnerMarks.{MarksEach, IsReachedFrom};
ghost use Rattle.rp_evidence.specs.Enumeration.{Enumerates};

use rp_num::NoMemory;
use rp_pref::Closure;
use rp_table::NewBudget;
use std::alloc::Global;

/// The observations below the budget, in order.
pub fn below(alloc: Global, budget: &NewBudget, closure: &Closure) -> Result<Vec<u32>, NoMemory>
    requires { IsWeakClosureOf closure.now (input_of budget.now.at) }
    ensures { IfOk result (λ below.
        ListsBelow (input_of budget.now.at) (new_budget budget.now) below.items) }
{
    let starts = bought(alloc, budget)?;
    reached_from(alloc, closure, budget.at.table.n(), &starts)
}

/// The observations strictly below the budget, in order, from those that are below.
pub fn strictly_below(
    alloc: Global,
    budget: &NewBudget,
    closure: &Closure,
    below: &[u32],
) -> Result<Vec<u32>, NoMemory>
    requires closed { IsWeakClosureOf closure.now (input_of budget.now.at) }
    requires below { ListsBelow (input_of budget.now.at) (new_budget budget.now) below.now }
    ensures { IfOk result (λ strict.
        ListsStrictlyBelow (input_of budget.now.at) (new_budget budget.now) strict.items) }
{
    let starts = strict_starts(alloc, budget, below)?;
    reached_from(alloc, closure, budget.at.table.n(), &starts)
}

/// Of each observation, whether the budget buys its bundle.
fn bought(alloc: Global, budget: &NewBudget) -> Result<Vec<bool>, NoMemory>
    ensures { IfOk result (λ marks. MarksEach (records_of budget.now.at.table.now)
        (Buys (input_of budget.now.at) (new_budget budget.now)) marks.items) }
{
    let mut marks = Vec::new(alloc);
    for s in 0..budget.at.table.n() {
        marks.push(budget.at.spending(s) <= budget.m)?;
    }
    Ok(marks)
}

/// Of each observation, whether a walk from it on is strict.
fn strict_starts(alloc: Global, budget: &NewBudget, below: &[u32]) -> Result<Vec<bool>, NoMemory>
    requires { ListsBelow (input_of budget.now.at) (new_budget budget.now) below.now }
    ensures { IfOk result (λ marks. MarksEach (records_of budget.now.at.table.now)
        (IsStrictStart (input_of budget.now.at) (new_budget budget.now)) marks.items) }
{
    let mut marks = Vec::new(alloc);
    for v in 0..budget.at.table.n() {
        marks.push(is_strict_start(budget, below, v))?;
    }
    Ok(marks)
}

/// Whether a walk from `v` on is strict.
fn is_strict_start(budget: &NewBudget, below: &[u32], v: u32) -> bool
    requires below { ListsBelow (input_of budget.now.at) (new_budget budget.now) below.now }
    requires observed { v < records_of budget.now.at.table.now }
    ensures { IsTrue result
        ↔ IsStrictStart (input_of budget.now.at) (new_budget budget.now) v }
{
    budget.at.spending(v) < budget.m || some_strict(budget, below, v)
}

/// Whether some observation of the list is strictly preferred to `v`.
fn some_strict(budget: &NewBudget, list: &[u32], v: u32) -> bool
    requires listed { All (λ u. u < records_of budget.now.at.table.now) list.now }
    requires observed { v < records_of budget.now.at.table.now }
    ensures { IsTrue result
        ↔ ((u : ℕ) × Contains list.now u × IsStrict (cost_of budget.now.at.table.now) u v) }
{
    for u in list {
        if budget.at.cost(*u, v) < budget.at.cost(*u, *u) {
            return true;
        }
    }
    false
}

/// The observations that a start is or reaches, in order.
fn reached_from(
    alloc: Global,
    closure: &Closure,
    n: u32,
    starts: &[bool],
) -> Result<Vec<u32>, NoMemory>
    requires size { closure.now.n ≡ n }
    requires one_each { length starts.now ≡ n }
    ensures { IfOk result (λ reached.
        Enumerates n (IsReachedFrom closure.now starts.now) reached.items) }
{
    let mut reached = Vec::new(alloc);
    for t in 0..n {
        if is_reached(closure, n, starts, t) {
            reached.push(t)?;
        }
    }
    Ok(reached)
}

/// Whether a start is `t` or reaches it.
fn is_reached(closure: &Closure, n: u32, starts: &[bool], t: u32) -> bool
    requires size { closure.now.n ≡ n }
    requires one_each { length starts.now ≡ n }
    requires observed { t < n }
    ensures { IsTrue result ↔ IsReachedFrom closure.now starts.now t }
{
    for s in 0..n {
        if starts[s as usize] && closure.equals_or_reaches(s, t) {
            return true;
        }
    }
    false
}
