//! The bounds of a household, filled where they are withheld.
ghost use Rattle.std.specs.Prelude.{◌≡◌, ◌<◌, [], IfOk};
ghost use Rattle.rp_evidence.specs.DemandEvidence.{ProvesDemand, ProvesWelfare, budget_of};
ghost use Rattle.rp_evidence.specs.Input.{input_of_table};
ghost use Rattle.rp_filled.specs.Filled.{IsFilledDemand, IsFilledWelfare};
ghost use Rattle.rp_garp.specs.Test.{IsTestOf};
ghost use Rattle.rp_people.specs.Says.{SaysDemand, SaysWelfare};
ghost use Rattle.rp_support.specs.DemandVerdict.{IsDemandVerdict};
ghost use Rattle.rp_table.specs.Limits.{IsExpenditure};
ghost use Rattle.rp_table.specs.NewPrices.{AreNewPrices};
ghost use Rattle.rp_table.specs.Tables.{goods_of, records_of};
ghost use Rattle.rp_welfare.specs.WelfareVerdict.{IsWelfareVerdict};
ghost use Rattle.rp_bound_rows.specs.SmallParts.{HasSmallDemand, HasSmallWelfare};
ghost use Rattle.rp_bound_rows_wide.specs.FilledBounds.{IsGivenDemand, IsGivenWelfare};

use crate::item::found_item;
use rp_bound_rows::BoundSearch;
use rp_evidence::{DemandPart, Item, WelfarePart};
use rp_garp::GarpTest;
use rp_num::{NoMemory, Seq};
use rp_support::demand;
use rp_table::Table;
use rp_welfare::welfare;
use std::alloc::Global;

/// What is computed, with what the searches past the widths find for each bound that is withheld.
pub struct Filled;

impl BoundSearch for Filled {
    ghost of_demand = { IsGivenDemand };

    ghost of_welfare = { IsGivenWelfare };

    fn demand(
        alloc: Global,
        table: &Table,
        tested: &GarpTest,
        prices: &[u32],
        m: u64,
    ) -> Result<DemandPart, NoMemory> {
        let stated = demand(alloc, table, tested, prices, m)?;
        let found = found_demand(alloc, table, tested, prices, m, stated)?;
        Ok(found)
    }

    fn welfare(
        alloc: Global,
        table: &Table,
        tested: &GarpTest,
        prices: &[u32],
        t: u32,
    ) -> Result<WelfarePart, NoMemory> {
        let stated = welfare(alloc, table, tested, prices, t)?;
        let found = found_welfare(alloc, table, tested, prices, t, stated)?;
        Ok(found)
    }
}

/// The evidence on demand, with what is found for each bound that is withheld.
fn found_demand(
    alloc: Global,
    table: &Table,
    tested: &GarpTest,
    prices: &[u32],
    m: u64,
    stated: DemandPart,
) -> Result<DemandPart, NoMemory>
    requires is_test { IsTestOf table.now tested.now }
    requires no_levels { table.now.levels ≡ [] }
    requires prices { AreNewPrices (goods_of table.now) prices.now }
    requires spent { IsExpenditure m }
    requires proves { ProvesDemand (input_of_table table.now) prices.now m stated }
    requires given { IsDemandVerdict (input_of_table table.now) (budget_of prices.now m)
        tested.now.garp stated }
    ensures from_stated { IfOk result (IsFilledDemand stated) }
    ensures proves { IfOk result (ProvesDemand (input_of_table table.now) prices.now m) }
    ensures says { IfOk result (SaysDemand (input_of_table table.now) prices.now m) }
    ensures small { IfOk result HasSmallDemand }
{
    let listed = Vec::from_slice(alloc, prices)?;
    let item = Item::Demand {
        prices: Seq::from_vec(listed),
        m,
        part: stated,
    };
    let found = found_item(alloc, table, tested, item)?;
    match found {
        Item::Demand { part, .. } => Ok(part),
        _ => unreachable!(),
    }
}

/// The evidence on the money metric of observation `t`, with what is found for a lower bound that is withheld.
fn found_welfare(
    alloc: Global,
    table: &Table,
    tested: &GarpTest,
    prices: &[u32],
    t: u32,
    stated: WelfarePart,
) -> Result<WelfarePart, NoMemory>
    requires is_test { IsTestOf table.now tested.now }
    requires no_levels { table.now.levels ≡ [] }
    requires prices { AreNewPrices (goods_of table.now) prices.now }
    requires observed { t < records_of table.now }
    requires proves { ProvesWelfare (input_of_table table.now) prices.now t stated }
    requires given { IsWelfareVerdict (input_of_table table.now) prices.now t tested.now.garp
        stated }
    ensures from_stated { IfOk result (IsFilledWelfare stated) }
    ensures proves { IfOk result (ProvesWelfare (input_of_table table.now) prices.now t) }
    ensures says { IfOk result (SaysWelfare (input_of_table table.now) prices.now t) }
    ensures small { IfOk result HasSmallWelfare }
{
    let listed = Vec::from_slice(alloc, prices)?;
    let item = Item::Welfare {
        prices: Seq::from_vec(listed),
        of: t,
        part: stated,
    };
    let found = found_item(alloc, table, tested, item)?;
    match found {
        Item::Welfare { part, .. } => Ok(part),
        _ => unreachable!(),
    }
}
