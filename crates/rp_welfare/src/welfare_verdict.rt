//! The bounds of an observation on the money metric.
ghost use Rattle.std.specs.Prelude.{◌≡◌, ◌<◌, [], IfOk};
ghost use Rattle.rp_evidence.specs.DemandEvidence.{ProvesWelfare};
ghost use Rattle.rp_evidence.specs.Input.{input_of_table};
ghost use Rattle.rp_evidence.specs.WelfareModels.{HoldsInEveryModel};
ghost use Rattle.rp_garp.specs.Test.{IsTestOf};
ghost use Rattle.rp_people.specs.Says.{SaysWelfare};
ghost use Rattle.rp_table.specs.NewPrices.{AreNewPrices};
ghost use Rattle.rp_table.specs.Tables.{goods_of, records_of};
ghost use Rattle.rp_welfare.specs.WelfareVerdict.{HasBoundedProgram, HasLowerAtMostUpper};
ghost use Rattle.rp_welfare.specs.WelfareVerdict.{IsWelfareVerdict};

use crate::lower::lower_bound;
use crate::upper::first_cheapest;
use rp_evidence::{Garp, WelfarePart};
use rp_garp::GarpTest;
use rp_num::{NoMemory, Seq};
use rp_table::{NewPrices, Table};
use std::alloc::Global;

/// The bounds of observation `t`, from 0, at the new prices, from the test of the table: the upper one where the axiom
/// holds, with the lower one unless its run passes its width; else the violation that the test shows. The observations
/// have no levels of their own.
pub fn welfare(
    alloc: Global,
    table: &Table,
    tested: &GarpTest,
    prices: &[u32],
    t: u32,
) -> Result<WelfarePart, NoMemory>
    requires is_test { IsTestOf table.now tested.now }
    requires no_levels { table.now.levels ≡ [] }
    requires prices { AreNewPrices (goods_of table.now) prices.now }
    requires observed { t < records_of table.now }
    ensures proves { IfOk result
        (λ part. ProvesWelfare (input_of_table table.now) prices.now t part) }
    ensures given { IfOk result (λ part.
        IsWelfareVerdict (input_of_table table.now) prices.now t tested.now.garp part) }
    ensures lower_at_most_upper { IfOk result HasLowerAtMostUpper }
    ensures in_every_model { IfOk result
        (λ part. HoldsInEveryModel (input_of_table table.now) prices.now t part) }
    ensures says { IfOk result
        (λ part. SaysWelfare (input_of_table table.now) prices.now t part) }
    ensures bounded { IfOk result
        (λ part. HasBoundedProgram (input_of_table table.now) prices.now t part) }
{
    match &tested.garp {
        Garp::Cycle(walk) => {
            let walk = Vec::from_slice(alloc, walk.as_slice())?;
            Ok(WelfarePart::NoModel(Seq::from_vec(walk)))
        }
        Garp::Ranks(_) => {
            let new = NewPrices {
                table,
                costs: &tested.costs,
                prices,
            };
            let upper = first_cheapest(&new, &tested.closure, t);
            let lower = lower_bound(alloc, &new, &tested.closure, t)?;
            Ok(WelfarePart::Bounds {
                upper: upper.cost,
                at: upper.at,
                lower,
            })
        }
    }
}
