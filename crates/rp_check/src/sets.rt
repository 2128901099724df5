//! The observations below a new budget, marked.
ghost use Rattle.std.specs.Prelude.{◌<◌, ◌≤◌, ◌↔◌, ℕ, IsTrue, length};
ghost use Rattle.rp_check.specs.InnerSets.{AreSets};
ghost use Rattle.rp_evidence.specs.InnerBudget.{input_of, new_budget};
ghost use Rattle.rp_check.specs.DemandFailure.{SetsFail};
ghost use Rattle.rp_evidence.specs.Reached.{IsWeakClosureOf};
ghost use Rattle.rp_evidence.specs.Marks.{AreMarked, IsMarked};
ghost use Rattle.rp_evidence.specs.Demand.{Buys, IsBelow, IsStrictStart};
ghost use Rattle.rp_evidence.specs.Preference.{IsStrict};
ghost use Rattle.rp_table.specs.Cost.{cost_of};
ghost use Rattle.rp_table.specs.Tables.{records_of};

use rp_clauses::closure::{Reachability, spread};
use rp_clauses::input::Input;
use rp_clauses::reach::{ROOM, is_marked_list};
use rp_clauses::standard::WHOLE;
use rp_evidence::{Failure, Reason, fails};
use rp_table::NewBudget;

/// Which observations are below a new budget, and which strictly below.
#[derive(Drop)]
pub struct Sets {
    pub below: [bool; ROOM],
    pub strict: [bool; ROOM],
}

impl Sets {
    /// The sets of the budget.
    pub fn of(budget: &NewBudget<'_>, closure: &Reachability) -> Sets
        requires { IsWeakClosureOf closure.now (input_of budget.now.at) }
        ensures { AreSets (input_of budget.now.at) (new_budget budget.now) result }
    {
        prove!(budget.at.n() as usize <= ROOM);
        let input = Input {
            table: budget.at.table,
            costs: budget.at.costs,
        };
        let mut below = [false; ROOM];
        mark_bought(budget, &mut below);
        spread(&input, closure, &mut below);
        let mut strict = [false; ROOM];
        mark_strict_starts(budget, &below, &mut strict);
        spread(&input, closure, &mut strict);
        Sets { below, strict }
    }
}

/// Marks the observations of which the budget buys the bundle.
fn mark_bought(budget: &NewBudget<'_>, marks: &mut [bool])
    requires { records_of budget.now.at.table.now ≤ length marks.old }
    ensures { AreMarked (records_of budget.now.at.table.now)
        (Buys (input_of budget.now.at) (new_budget budget.now))
        marks.new }
{
    for s in 0..budget.at.n() {
        marks[s as usize] = budget.at.spending(s) <= budget.m;
    }
}

/// Marks the observations from which on a walk is strict, from those that are below.
fn mark_strict_starts(budget: &NewBudget<'_>, below: &[bool], marks: &mut [bool])
    requires room { records_of budget.now.at.table.now ≤ length marks.old }
    requires some { records_of budget.now.at.table.now ≤ length below.now }
    requires below { AreMarked (records_of budget.now.at.table.now)
        (IsBelow (input_of budget.now.at) (new_budget budget.now))
        below.now }
    ensures { AreMarked (records_of budget.now.at.table.now)
        (IsStrictStart (input_of budget.now.at) (new_budget budget.now)) marks.new }
{
    for v in 0..budget.at.n() {
        marks[v as usize] = is_strict_start(budget, below, v);
    }
}

/// Whether money is left for the bundle of `v`, or an observation below is strictly preferred to it.
fn is_strict_start(budget: &NewBudget<'_>, below: &[bool], v: u32) -> bool
    requires some { records_of budget.now.at.table.now ≤ length below.now }
    requires below { AreMarked (records_of budget.now.at.table.now)
        (IsBelow (input_of budget.now.at) (new_budget budget.now))
        below.now }
    requires observed { v < records_of budget.now.at.table.now }
    ensures { IsTrue result
        ↔ IsStrictStart (input_of budget.now.at) (new_budget budget.now) v }
{
    if budget.at.spending(v) < budget.m {
        return true;
    }
    let input = Input {
        table: budget.at.table,
        costs: budget.at.costs,
    };
    some_strict(&input, below, v)
}

/// Whether some marked observation is strictly preferred to `v`.
fn some_strict(input: &Input<'_>, marks: &[bool], v: u32) -> bool
    requires some { records_of input.now.table.now ≤ length marks.now }
    requires observed { v < records_of input.now.table.now }
    ensures { IsTrue result ↔ ((u : ℕ) × (u < records_of input.now.table.now)
        × IsMarked marks.now u × IsStrict (cost_of input.now.table.now) u v) }
{
    for u in 0..input.n() {
        if marks[u as usize] && input.is_strict(WHOLE, u, v) {
            return true;
        }
    }
    false
}

/// Checks the lists of the observations below and strictly below.
pub fn check_lists(
    budget: &NewBudget<'_>,
    sets: &Sets,
    below: &[u32],
    strict: &[u32],
) -> Result<(), Failure>
    requires sets { AreSets (input_of budget.now.at) (new_budget budget.now) sets.now }
    ensures { SetsFail (input_of budget.now.at) (new_budget budget.now)
        below.now strict.now result }
{
    let n = budget.at.n();
    if !is_marked_list(n, &sets.below, below) {
        return fails(Reason::Set, 1);
    }
    if !is_marked_list(n, &sets.strict, strict) {
        return fails(Reason::Set, 2);
    }
    Ok(())
}
