//! The clauses of demand at new prices.
ghost use Rattle.std.specs.Prelude.{◌≡◌, ◌<◌, ◌↔◌, ◌∷◌, [], IsTrue, length};
ghost use Rattle.rp_check.specs.InnerSets.{AreFewOf, AreSets};
ghost use Rattle.rp_evidence.specs.InnerBudget.{input_of, new_budget};
ghost use Rattle.rp_check.specs.DemandFailure.{CostsEnoughAt, SetsFail};
ghost use Rattle.rp_check.specs.DemandFailure.{DemandFails, GoodFails, GoodsFail, InnerFails};
ghost use Rattle.rp_evidence.specs.Reached.{IsWeakClosureOf};
ghost use Rattle.rp_evidence.specs.BoundEvidence.{BoundHolds};
ghost use Rattle.rp_evidence.specs.DemandEvidence.{bundle_of};
ghost use Rattle.rp_evidence.specs.DemandPrograms.{lower_program, upper_program};
ghost use Rattle.rp_evidence.specs.Input.{input_of_table};
ghost use Rattle.rp_evidence.specs.Clauses.{InOrder};
ghost use Rattle.rp_table.specs.Tables.{goods_of, records_of};

use crate::sets::{Sets, check_lists};
use rp_clauses::bound::bound_holds;
use rp_clauses::closure::Reachability;
use rp_clauses::input::Input;
use rp_clauses::prices::{check_expenditure, check_prices};
use rp_clauses::reach::ROOM;
use rp_clauses::standard::WHOLE;
use rp_clauses::walk::check_violation;
use rp_evidence::{Bound, DemandPart, Failure, GoodBounds, Point, Reason, fails};
use rp_farkas::Measure;
use rp_programs::DemandProgram;
use rp_table::{NewBudget, NewPrices};

/// Checks evidence on demand at new prices when `m` is spent; `garp_shown` says whether an item before it shows by
/// ranks that the axiom holds.
pub fn check_demand(
    input: &Input<'_>,
    closure: &Reachability,
    garp_shown: bool,
    prices: &[u32],
    m: u64,
    evidence: &DemandPart,
) -> Result<(), Failure>
    requires closure { IsWeakClosureOf closure.now (input_of_table input.now.table.now) }
    ensures { DemandFails (input_of_table input.now.table.now) garp_shown prices.now m
        evidence.now result }
{
    check_prices(input, prices)?;
    check_expenditure(m)?;
    let at = NewPrices {
        table: input.table,
        costs: input.costs,
        prices,
    };
    let budget = NewBudget { at, m };
    match evidence {
        DemandPart::Bounds {
            below,
            strict,
            inner,
            goods,
        } => {
            if !garp_shown {
                return fails(Reason::NoGarp, 0);
            }
            check_bounds(
                &budget,
                &Sets::of(&budget, closure),
                below.as_slice(),
                strict.as_slice(),
                inner,
                goods.as_slice(),
            )
        }
        DemandPart::NoModel(walk) => check_violation(input, WHOLE, walk.as_slice()),
    }
}

/// Checks the sets of observations, the inner point and the bounds of each good.
fn check_bounds(
    budget: &NewBudget<'_>,
    sets: &Sets,
    below: &[u32],
    strict: &[u32],
    inner: &Point,
    goods: &[GoodBounds],
) -> Result<(), Failure>
    requires sets { AreSets (input_of budget.now.at) (new_budget budget.now) sets.now }
    ensures { InOrder (SetsFail (input_of budget.now.at) (new_budget budget.now)
        below.now strict.now
        ∷ InnerFails (input_of budget.now.at) (new_budget budget.now) inner.now
        ∷ GoodsFail (input_of budget.now.at) (new_budget budget.now) below.now goods.now
        ∷ []) result }
{
    prove!(budget.at.n() as usize <= ROOM);
    check_lists(budget, sets, below, strict)?;
    check_inner(budget, sets, inner)?;
    check_goods(budget, below, goods)
}

/// Checks the inner point: a denominator, one numerator for each good, on the budget, and dear enough at each
/// observation.
fn check_inner(budget: &NewBudget<'_>, sets: &Sets, inner: &Point) -> Result<(), Failure>
    requires sets { AreSets (input_of budget.now.at) (new_budget budget.now) sets.now }
    ensures { InnerFails (input_of budget.now.at) (new_budget budget.now) inner.now result }
{
    let num = inner.num.as_slice();
    if inner.den == 0 {
        return fails(Reason::Number, 0);
    }
    if num.len() != budget.at.table.goods() as usize {
        return fails(Reason::Shape, 1);
    }
    if budget.at.numerator_cost(num) != u128::from(inner.den) * u128::from(budget.m) {
        return fails(Reason::Point, 0);
    }
    for t in 0..budget.at.n() {
        if !costs_enough(budget, sets, inner, t) {
            return fails(Reason::Point, t as usize + 1);
        }
    }
    Ok(())
}

/// Whether the point costs at least what was spent at `t` where it is below, and more where it is strictly below.
fn costs_enough(budget: &NewBudget<'_>, sets: &Sets, inner: &Point, t: u32) -> bool
    requires sets { AreSets (input_of budget.now.at) (new_budget budget.now) sets.now }
    requires goods { length inner.now.num ≡ goods_of budget.now.at.table.now }
    requires observed { t < records_of budget.now.at.table.now }
    ensures { IsTrue result ↔ CostsEnoughAt (input_of budget.now.at) (new_budget budget.now)
        (bundle_of inner.now) t }
{
    prove!(budget.at.n() as usize <= ROOM);
    let cost = budget.at.numerator_cost_at(t, inner.num.as_slice());
    let spent = u128::from(inner.den) * u128::from(budget.at.cost(t, t));
    if sets.strict[t as usize] && cost <= spent {
        return false;
    }
    !sets.below[t as usize] || cost >= spent
}

/// Checks the bounds of each good.
fn check_goods(budget: &NewBudget<'_>, below: &[u32], goods: &[GoodBounds]) -> Result<(), Failure>
    requires below { AreFewOf (records_of budget.now.at.table.now) below.now }
    ensures { GoodsFail (input_of budget.now.at) (new_budget budget.now)
        below.now goods.now result }
{
    let count = budget.at.table.goods();
    if goods.len() != count as usize {
        return fails(Reason::Shape, 2);
    }
    for g in 0..count {
        check_good(budget, below, g, &goods[g as usize])?;
    }
    Ok(())
}

/// Checks the bounds of good `g`, first the lower one.
fn check_good(
    budget: &NewBudget<'_>,
    below: &[u32],
    g: u32,
    bounds: &GoodBounds,
) -> Result<(), Failure>
    requires below { AreFewOf (records_of budget.now.at.table.now) below.now }
    requires good { g < goods_of budget.now.at.table.now }
    ensures { GoodFails (input_of budget.now.at) (new_budget budget.now)
        below.now g bounds.now result }
{
    if !lower_holds(budget, below, g, &bounds.lower) {
        return fails(Reason::Bound, 2 * g as usize + 1);
    }
    if !upper_holds(budget, below, g, &bounds.upper) {
        return fails(Reason::Bound, 2 * g as usize + 2);
    }
    Ok(())
}

/// Whether a shown lower bound of good `g` is that of its pair.
fn lower_holds(budget: &NewBudget<'_>, below: &[u32], g: u32, bound: &Bound) -> bool
    requires below { AreFewOf (records_of budget.now.at.table.now) below.now }
    requires good { g < goods_of budget.now.at.table.now }
    ensures { IsTrue result ↔ BoundHolds
        (lower_program (input_of budget.now.at) (new_budget budget.now) below.now g)
        (λ x. x g) bound.now }
{
    bound_holds(
        &DemandProgram::least(budget, below, g),
        Measure::Price(g),
        bound,
    )
}

/// Whether a shown upper bound of good `g` is that of its pair.
fn upper_holds(budget: &NewBudget<'_>, below: &[u32], g: u32, bound: &Bound) -> bool
    requires below { AreFewOf (records_of budget.now.at.table.now) below.now }
    requires good { g < goods_of budget.now.at.table.now }
    ensures { IsTrue result ↔ BoundHolds
        (upper_program (input_of budget.now.at) (new_budget budget.now) below.now g)
        (λ x. x g) bound.now }
{
    bound_holds(
        &DemandProgram::greatest(budget, below, g),
        Measure::Price(g),
        bound,
    )
}
