//! The clauses of the bounds on the money metric.
ghost use Rattle.std.specs.Prelude.{◌≤◌, ◌<◌, ◌↔◌, ◌∷◌, [], IsTrue, length, slice_index};
ghost use Rattle.rp_check.specs.InnerSets.{AreFewOf};
ghost use Rattle.rp_evidence.specs.InnerBudget.{input_of};
ghost use Rattle.rp_evidence.specs.Clauses.{FirstUnless, InOrder, Unless};
ghost use Rattle.rp_evidence.specs.Reached.{IsWeakClosureOf};
ghost use Rattle.rp_evidence.specs.Marks.{AreMarked};
ghost use Rattle.rp_clauses.specs.WalkFailure.{ViolationFails};
ghost use Rattle.rp_check.specs.WelfareFailure.{IsNotAboveAt, LowerHolds};
ghost use Rattle.rp_check.specs.WelfareFailure.{WelfareBoundsFail, WelfareFails};
ghost use Rattle.rp_evidence.specs.BoundEvidence.{BoundHolds};
ghost use Rattle.rp_evidence.specs.Input.{input_of_table};
ghost use Rattle.rp_evidence.specs.Preference.{IsStrict, IsWeak};
ghost use Rattle.rp_evidence.specs.LeastCost.{least_cost_program};
ghost use Rattle.rp_evidence.specs.Welfare.{EqualsOrReaches};
ghost use Rattle.rp_evidence.specs.declared.failure.Reason.TheVariants.{Least as LeastReason};
ghost use Rattle.rp_evidence.specs.declared.failure.Reason.TheVariants.{Number};
ghost use Rattle.rp_table.specs.Cost.{cost_of};
ghost use Rattle.rp_table.specs.Spending.{spending};
ghost use Rattle.rp_table.specs.Tables.{goods_of, records_of};

use rp_clauses::bound::bound_holds;
use rp_clauses::closure::Reachability;
use rp_clauses::input::Input;
use rp_clauses::prices::check_prices;
use rp_clauses::reach::{ROOM, write_marked};
use rp_clauses::standard::WHOLE;
use rp_clauses::walk::check_violation;
use rp_evidence::{Bound, Failure, Reason, WelfarePart, fails};
use rp_farkas::Measure;
use rp_programs::LeastCostProgram;
use rp_table::NewPrices;

/// Checks evidence on the money metric of observation `t`, from 0, at new prices; `garp_shown` says whether an item
/// before it shows by ranks that the axiom holds.
pub fn check_welfare(
    input: &Input<'_>,
    closure: &Reachability,
    garp_shown: bool,
    prices: &[u32],
    t: u32,
    evidence: &WelfarePart,
) -> Result<(), Failure>
    requires closure { IsWeakClosureOf closure.now (input_of_table input.now.table.now) }
    ensures { WelfareFails (input_of_table input.now.table.now) garp_shown prices.now t
        evidence.now result }
{
    check_prices(input, prices)?;
    let new_prices = NewPrices {
        table: input.table,
        costs: input.costs,
        prices,
    };
    match evidence {
        WelfarePart::Bounds { upper, at, lower } => {
            if t >= input.n() || *at >= input.n() {
                return fails(Reason::Number, 0);
            }
            check_bounds(&new_prices, closure, garp_shown, t, *upper, *at, lower)
        }
        WelfarePart::NoModel(walk) => check_no_model(input, t, walk.as_slice()),
    }
}

/// Checks the observation, and then the violation.
fn check_no_model(input: &Input<'_>, t: u32, walk: &[u32]) -> Result<(), Failure>
    ensures { InOrder (
        Unless (t < records_of input.now.table.now) Number 0
        ∷ ViolationFails (records_of input.now.table.now)
        (IsWeak (cost_of input.now.table.now))
        (IsStrict (cost_of input.now.table.now)) walk.now
        ∷ []) result }
{
    if t >= input.n() {
        return fails(Reason::Number, 0);
    }
    check_violation(input, WHOLE, walk)
}

/// Checks the upper bound and where it stands, and then the lower bound.
fn check_bounds(
    new_prices: &NewPrices<'_>,
    closure: &Reachability,
    garp_shown: bool,
    t: u32,
    upper: u64,
    at: u32,
    lower: &Bound,
) -> Result<(), Failure>
    requires closure { IsWeakClosureOf closure.now (input_of new_prices.now) }
    requires observed { t < records_of new_prices.now.table.now }
    requires at { at < records_of new_prices.now.table.now }
    ensures { WelfareBoundsFail (input_of new_prices.now) garp_shown
        (slice_index new_prices.now.prices.now) t upper at lower.now result }
{
    if !garp_shown {
        return fails(Reason::NoGarp, 0);
    }
    prove!(new_prices.n() as usize <= ROOM);
    let marks = reaching(new_prices, closure, t);
    if !marks[at as usize] {
        return fails(Reason::Set, 1);
    }
    if upper != new_prices.spending(at) {
        return fails(Reason::Point, 0);
    }
    check_none_cheaper(new_prices, t, &marks, upper)?;
    if !lower_holds(new_prices, closure, t, lower) {
        return fails(Reason::Bound, 1);
    }
    Ok(())
}

/// Checks that no observation that equals or reaches `t` costs less.
fn check_none_cheaper(
    new_prices: &NewPrices<'_>,
    t: u32,
    reaching: &[bool],
    upper: u64,
) -> Result<(), Failure>
    requires room { records_of new_prices.now.table.now ≤ length reaching.now }
    requires marked { AreMarked (records_of new_prices.now.table.now)
        (λ s. EqualsOrReaches (input_of new_prices.now) s t) reaching.now }
    ensures { FirstUnless (records_of new_prices.now.table.now)
        (IsNotAboveAt (input_of new_prices.now) (slice_index new_prices.now.prices.now) t upper)
        LeastReason result }
{
    for s in 0..new_prices.n() {
        if reaching[s as usize] && new_prices.spending(s) < upper {
            return fails(Reason::Least, s as usize + 1);
        }
    }
    Ok(())
}

/// Marks `t` and the observations that reach it.
fn reaching(new_prices: &NewPrices<'_>, closure: &Reachability, t: u32) -> [bool; ROOM]
    requires closure { IsWeakClosureOf closure.now (input_of new_prices.now) }
    requires observed { t < records_of new_prices.now.table.now }
    ensures { AreMarked (records_of new_prices.now.table.now)
        (λ s. EqualsOrReaches (input_of new_prices.now) s t) result }
{
    prove!(new_prices.n() as usize <= ROOM);
    let mut marks = [false; ROOM];
    for s in 0..new_prices.n() {
        marks[s as usize] = closure.equals_or_reaches(s, t);
    }
    marks
}

/// Marks `t` and the observations that it reaches.
fn reached(new_prices: &NewPrices<'_>, closure: &Reachability, t: u32) -> [bool; ROOM]
    requires closure { IsWeakClosureOf closure.now (input_of new_prices.now) }
    requires observed { t < records_of new_prices.now.table.now }
    ensures { AreMarked (records_of new_prices.now.table.now)
        (EqualsOrReaches (input_of new_prices.now) t) result }
{
    prove!(new_prices.n() as usize <= ROOM);
    let mut marks = [false; ROOM];
    for s in 0..new_prices.n() {
        marks[s as usize] = closure.equals_or_reaches(t, s);
    }
    marks
}

/// Whether a shown lower bound of `t` is that of its pair.
fn lower_holds(new_prices: &NewPrices<'_>, closure: &Reachability, t: u32, lower: &Bound) -> bool
    requires closure { IsWeakClosureOf closure.now (input_of new_prices.now) }
    requires observed { t < records_of new_prices.now.table.now }
    ensures { IsTrue result
        ↔ LowerHolds (input_of new_prices.now) (slice_index new_prices.now.prices.now) t lower.now }
{
    prove!(new_prices.n() as usize <= ROOM);
    let marks = reached(new_prices, closure, t);
    let mut list = [0; ROOM];
    let count = write_marked(new_prices.n(), &marks, &mut list);
    cost_holds(new_prices, &list[..count], lower)
}

/// Whether a shown bound is what the price side costs in an equal pair of the program over these observations.
fn cost_holds(new_prices: &NewPrices<'_>, list: &[u32], bound: &Bound) -> bool
    requires { AreFewOf (records_of new_prices.now.table.now) list.now }
    ensures { IsTrue result ↔ BoundHolds (least_cost_program (input_of new_prices.now)
        (slice_index new_prices.now.prices.now) list.now)
        (spending (goods_of new_prices.now.table.now) (slice_index new_prices.now.prices.now))
        bound.now }
{
    bound_holds(
        &LeastCostProgram::make(new_prices.table, new_prices.prices, list),
        Measure::Cost,
        bound,
    )
}
