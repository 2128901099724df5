//! The bounds on what an output costs at new prices.
ghost use Rattle.std.specs.Prelude.{◌≤◌, IfOk, slice_index};
ghost use Rattle.rp_evidence.specs.Input.{input_of_table};
ghost use Rattle.rp_table.specs.NewPrices.{AreNewPrices};
ghost use Rattle.rp_table.specs.Tables.{goods_of};
ghost use Rattle.rp_limits.specs.declared.table.TheConstants.{LARGEST};
ghost use Rattle.rp_cost.specs.Axioms.{MeetsCost};
ghost use Rattle.rp_cost.specs.CostBounds.{AreCostBounds, BoundProducers, BoundsHold};
ghost use Rattle.rp_cost.specs.CostBounds.{IsAtMostUpper, ProvesCostBounds, ShowsNothing};
ghost use Rattle.rp_producers.specs.OuterSet.{AllMakeMore, MadeIsOuter};

use crate::lower::lower_bound;
use crate::question::Question;
use crate::tech::Tech;
use crate::upper::{Upper, first_cheapest};
use rp_evidence::Bound;
use rp_num::NoMemory;
use std::alloc::Global;

/// Bounds on what an output costs at new prices. There is none from above where no observation made as much.
#[derive(Debug, Drop)]
pub struct CostBounds {
    pub upper: Option<Upper>,
    pub lower: Bound,
}

/// The bounds of the output `y` at the new prices. The one from below is the value of a program with a row for each
/// input and a column for each observation that made `y` or less, in their order; it is withheld where its run passes
/// its width. Both bound every producer whose requirement sets the technology does not rule out (Varian 1984).
pub fn cost_bounds(
    alloc: Global,
    tech: &Tech,
    prices: &[u32],
    y: u32,
) -> Result<CostBounds, NoMemory>
    requires minimises { MeetsCost tech.now }
    requires prices { AreNewPrices (goods_of tech.now.table) prices.now }
    requires output { y ≤ LARGEST }
    ensures proves { IfOk result (ProvesCostBounds (input_of_table tech.now.table)
        (slice_index tech.now.y) y (slice_index prices.now)) }
    ensures given { IfOk result (AreCostBounds (input_of_table tech.now.table)
        (slice_index tech.now.y) y (slice_index prices.now)) }
    ensures accepted { IfOk result (BoundsHold (input_of_table tech.now.table)
        (slice_index tech.now.y) y (slice_index prices.now)) }
    ensures made_is_outer { MadeIsOuter (input_of_table tech.now.table) (slice_index tech.now.y) y }
    ensures lower_at_most_upper { IfOk result
        (λ bounds. IsAtMostUpper bounds.lower bounds.upper) }
    ensures nothing_below { AllMakeMore (input_of_table tech.now.table) (slice_index tech.now.y) y
        → IfOk result (λ bounds. ShowsNothing (goods_of tech.now.table) bounds.lower) }
    ensures producers { IfOk result (BoundProducers (input_of_table tech.now.table)
        (slice_index tech.now.y) y (slice_index prices.now)) }
{
    let question = Question { tech, prices, y };
    let upper = first_cheapest(&question);
    let lower = lower_bound(alloc, &question)?;
    Ok(CostBounds { upper, lower })
}
