//! The axioms of cost minimisation and of profit maximisation.
ghost use Rattle.std.specs.Prelude.{◌≡◌, ◌<◌, ◌*◌, ◌↔◌, IsTrue, IfSome, IsNone};
ghost use Rattle.std.specs.Prelude.{length, slice_index};
ghost use Rattle.rp_evidence.specs.First.{IsFirstOf};
ghost use Rattle.rp_evidence.specs.Input.{input_of_table};
ghost use Rattle.rp_table.specs.Cost.{cost_of};
ghost use Rattle.rp_table.specs.Tables.{records_of};
ghost use Rattle.rp_cost.specs.Axioms.{AreFirstBroken, Breaks, MeetsCost, MeetsProfit};
ghost use Rattle.rp_producers.specs.CostAxiom.{BreaksCostAxiom};
ghost use Rattle.rp_producers.specs.ProductionSets.{HasConvexProductionSet, HasProductionSet};
ghost use Rattle.rp_producers.specs.ProfitAxiom.{BreaksProfitAxiom, profit};
ghost use Rattle.rp_producers.specs.RequirementSets.{HasConvexRequirementSets};
ghost use Rattle.rp_producers.specs.RequirementSets.{HasRequirementSets};
ghost use Rattle.rp_cost.specs.declared.axioms.Axiom.TheVariants.{Holds};
ghost use Rattle.rp_cost.specs.declared.axioms.Test.TheVariants.{Profit};

use crate::tech::Tech;

/// Whether an axiom holds; where it does not, the first two observations, by the first and then by the second, that
/// break it.
#[derive(Clone, Copy, Debug, PartialEq, Eq)]
pub enum Axiom {
    Holds,
    Pair { first: u32, second: u32 },
}

/// Which axiom is looked at.
#[derive(Clone, Copy)]
pub(crate) enum Test {
    Cost,
    Profit,
}

/// Whether the inputs minimise cost: the first observation of a pair spent more than it had to. The axiom holds exactly
/// where some nested and disposable requirement sets, which may be convex, make each observation one of least cost
/// (Varian 1984).
pub fn cost_axiom(tech: &Tech) -> Axiom
    ensures first { AreFirstBroken (records_of tech.now.table)
        (BreaksCostAxiom (cost_of tech.now.table) (slice_index tech.now.y)) result }
    ensures holds { (result ≡ Holds) ↔ MeetsCost tech.now }
    ensures sets { (result ≡ Holds) ↔ HasRequirementSets (input_of_table tech.now.table)
        (slice_index tech.now.y) }
    ensures convex { (result ≡ Holds) ↔ HasConvexRequirementSets (input_of_table tech.now.table)
        (slice_index tech.now.y) }
{
    first_pair(tech, Test::Cost)
}

/// Whether inputs and output maximise profit; none where the output has no price. The axiom holds exactly where in some
/// production set, which may be disposable and convex, each observation makes the most profit at its prices (Varian
/// 1984).
pub fn profit_axiom(tech: &Tech) -> Option<Axiom>
    ensures priced { IsNone result ↔ (length tech.now.p ≡ 0) }
    ensures first { IfSome result (AreFirstBroken (records_of tech.now.table) (BreaksProfitAxiom
        (cost_of tech.now.table) (slice_index tech.now.y) (slice_index tech.now.p))) }
    ensures holds { IfSome result (λ found. (found ≡ Holds) ↔ MeetsProfit tech.now) }
    ensures sets { IfSome result (λ found. (found ≡ Holds) ↔ HasProductionSet
        (input_of_table tech.now.table) (slice_index tech.now.y) (slice_index tech.now.p)) }
    ensures convex { IfSome result (λ found. (found ≡ Holds) ↔ HasConvexProductionSet
        (input_of_table tech.now.table) (slice_index tech.now.y) (slice_index tech.now.p)) }
{
    prove!(tech.count() > 0);
    tech.p(0)?;
    Some(first_pair(tech, Test::Profit))
}

/// The first pair that breaks the axiom.
fn first_pair(tech: &Tech, test: Test) -> Axiom
    requires priced { test ≡ Profit → length tech.now.p ≡ records_of tech.now.table }
    ensures { AreFirstBroken (records_of tech.now.table) (Breaks test tech.now) result }
{
    for first in 0..tech.count() {
        if let Some(second) = first_against(tech, test, first) {
            return Axiom::Pair { first, second };
        }
    }
    Axiom::Holds
}

/// The first observation that breaks the axiom together with `t`.
fn first_against(tech: &Tech, test: Test, t: u32) -> Option<u32>
    requires observed { t < records_of tech.now.table }
    requires priced { test ≡ Profit → length tech.now.p ≡ records_of tech.now.table }
    ensures { IsFirstOf (records_of tech.now.table) (Breaks test tech.now t) result }
{
    for s in 0..tech.count() {
        if breaks(tech, test, t, s) {
            return Some(s);
        }
    }
    None
}

/// Whether `t` and `s` break the axiom.
fn breaks(tech: &Tech, test: Test, t: u32, s: u32) -> bool
    requires first { t < records_of tech.now.table }
    requires second { s < records_of tech.now.table }
    requires priced { test ≡ Profit → length tech.now.p ≡ records_of tech.now.table }
    ensures { IsTrue result ↔ Breaks test tech.now t s }
{
    match test {
        Test::Cost => tech.y(t) <= tech.y(s) && tech.cost(t, s) < tech.cost(t, t),
        Test::Profit => profit(tech, t, t) < profit(tech, t, s),
    }
}

/// The profit of the inputs and the output of `s` at the prices of `t`.
fn profit(tech: &Tech, t: u32, s: u32) -> i64
    requires prices { t < records_of tech.now.table }
    requires inputs { s < records_of tech.now.table }
    requires priced { length tech.now.p ≡ records_of tech.now.table }
    ensures { result ≡ profit (cost_of tech.now.table) (slice_index tech.now.y)
        (slice_index tech.now.p) t s }
{
    let revenue = u64::from(tech.output_price(t)) * u64::from(tech.y(s));
    revenue as i64 - tech.cost(t, s) as i64
}
