//! The check of bounds on costs.
ghost use Rattle.std.specs.Prelude.{◌<◌, ◌≤◌, ◌↔◌, All, IsTrue, length, slice_index};
ghost use Rattle.rp_evidence.specs.BoundEvidence.{BoundHolds};
ghost use Rattle.rp_evidence.specs.Input.{input_of_table};
ghost use Rattle.rp_evidence.specs.LeastCost.{least_cost_program};
ghost use Rattle.rp_table.specs.NewPrices.{AreNewPrices};
ghost use Rattle.rp_table.specs.Spending.{spending};
ghost use Rattle.rp_table.specs.Tables.{goods_of, records_of};
ghost use Rattle.rp_limits.specs.declared.table.TheConstants.{LARGEST, RECORDS};
ghost use Rattle.rp_cost.specs.CostBounds.{BoundsHold, LowerHolds, ProvesCostBounds, UpperHolds};
ghost use Rattle.rp_cost.specs.InnerCheapest.{NoneCheaper};
ghost use Rattle.rp_producers.specs.OuterSet.{NoneMakes};

use crate::bounds::CostBounds;
use crate::listed::write_not_above;
use crate::question::Question;
use crate::tech::Tech;
use crate::upper::Upper;
use rp_clauses::bound::bound_holds;
use rp_clauses::reach::ROOM;
use rp_evidence::Bound;
use rp_farkas::Measure;

/// Whether these are bounds of the output `y` at the new prices, from the technology alone.
pub fn check_cost(tech: &Tech, prices: &[u32], y: u32, bounds: &CostBounds) -> bool
    requires prices { AreNewPrices (goods_of tech.now.table) prices.now }
    requires output { y ≤ LARGEST }
    ensures exact { IsTrue result ↔ BoundsHold (input_of_table tech.now.table)
        (slice_index tech.now.y) y (slice_index prices.now) bounds.now }
    ensures proves { IsTrue result → ProvesCostBounds (input_of_table tech.now.table)
        (slice_index tech.now.y) y (slice_index prices.now) bounds.now }
{
    let question = Question { tech, prices, y };
    upper_holds(&question, bounds.upper) && lower_holds(&question, &bounds.lower)
}

/// Whether the observation has the least cost of those that made enough, or none did.
fn upper_holds(question: &Question<'_>, upper: Option<Upper>) -> bool
    ensures { IsTrue result ↔ UpperHolds (input_of_table question.now.tech.now.table)
        (slice_index question.now.tech.now.y) question.now.y (slice_index question.now.prices.now)
        upper }
{
    match upper {
        None => none_makes(question),
        Some(upper) => {
            upper.at < question.tech.count()
                && question.tech.y(upper.at) >= question.y
                && question.spending(upper.at) == upper.cost
                && none_cheaper(question, upper.cost)
        }
    }
}

/// Whether no observation made enough.
fn none_makes(question: &Question<'_>) -> bool
    ensures { IsTrue result ↔ NoneMakes (input_of_table question.now.tech.now.table)
        (slice_index question.now.tech.now.y) question.now.y }
{
    for s in 0..question.tech.count() {
        if question.tech.y(s) >= question.y {
            return false;
        }
    }
    true
}

/// Whether no observation that made enough costs less.
fn none_cheaper(question: &Question<'_>, cost: u64) -> bool
    ensures { IsTrue result ↔ NoneCheaper (input_of_table question.now.tech.now.table)
        (slice_index question.now.tech.now.y) question.now.y (slice_index question.now.prices.now)
        cost }
{
    for s in 0..question.tech.count() {
        if question.tech.y(s) >= question.y && question.spending(s) < cost {
            return false;
        }
    }
    true
}

/// Whether a shown bound is what the price side costs in an equal pair of the program.
fn lower_holds(question: &Question<'_>, lower: &Bound) -> bool
    ensures { IsTrue result ↔ LowerHolds (input_of_table question.now.tech.now.table)
        (slice_index question.now.tech.now.y) question.now.y (slice_index question.now.prices.now)
        lower.now }
{
    prove!(question.tech.count() as usize <= ROOM);
    let mut list = [0; ROOM];
    let count = write_not_above(question.tech, question.y, &mut list);
    holds_over(question, &list[..count], lower)
}

/// Whether a shown bound is what the price side costs in an equal pair of the program over these observations.
fn holds_over(question: &Question<'_>, listed: &[u32], lower: &Bound) -> bool
    requires observed { All (λ t. t < records_of question.now.tech.now.table) listed.now }
    requires few { length listed.now ≤ RECORDS }
    ensures { IsTrue result ↔ BoundHolds (least_cost_program
        (input_of_table question.now.tech.now.table) (slice_index question.now.prices.now)
        listed.now) (spending (goods_of question.now.tech.now.table)
        (slice_index question.now.prices.now)) lower.now }
{
    bound_holds(&question.program(listed), Measure::Cost, lower)
}
