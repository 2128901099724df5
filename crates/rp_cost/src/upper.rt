//! The bound on a cost from above.
ghost use Rattle.std.specs.Prelude.{◌≡◌, ◌<◌, Option, slice_index, Some};
ghost use Rattle.rp_evidence.specs.Input.{input_of_table};
ghost use Rattle.rp_table.specs.Spending.{spending};
ghost use Rattle.rp_cost.specs.CostBounds.{IsUpperCostBound};
ghost use Rattle.rp_cost.specs.InnerCheapest.{cheaper_of};

use crate::question::Question;

/// What the inputs of an observation that made enough cost at the new prices, scaled by both scales.
#[derive(Clone, Copy, Debug)]
pub struct Upper {
    pub cost: u64,
    pub at: u32,
}

/// The first observation of least cost among those that made enough.
pub(crate) fn first_cheapest(question: &Question) -> Option<Upper>
    ensures { IsUpperCostBound (input_of_table question.now.tech.now.table)
        (slice_index question.now.tech.now.y) question.now.y
        (slice_index question.now.prices.now) result }
{
    let mut best = None;
    for s in 0..question.tech.count() {
        if question.tech.y(s) >= question.y {
            let cost = question.spending(s);
            best = Some(cheaper(best, Upper { cost, at: s }));
        }
    }
    best
}

/// The one of less cost, the earlier one of two that cost the same.
fn cheaper(earlier: Option<Upper>, later: Upper) -> Upper
    ensures { result ≡ cheaper_of earlier later }
{
    match earlier {
        Some(best) if best.cost <= later.cost => best,
        _ => later,
    }
}
