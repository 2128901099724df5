//! The answer of `demand`.
ghost use Rattle.std.specs.Prelude.{◌≡◌, [], IfOk, slice_index};
ghost use Rattle.rp_evidence.specs.Input.{input_of_table};
ghost use Rattle.rp_garp.specs.Test.{IsTestOf};
ghost use Rattle.rp_table.specs.Limits.{IsExpenditure};
ghost use Rattle.rp_table.specs.NewPrices.{AreNewPrices};
ghost use Rattle.rp_table.specs.Rows.{row_of, rows_count};
ghost use Rattle.rp_table.specs.Tables.{goods_of};
ghost use Rattle.rp_answers.specs.DemandText.{IsDemandCertificate, IsDemandItem, IsDemandTextBy};
ghost use Rattle.rp_answers.specs.DemandText.{IsSpentOn};
ghost use Rattle.rp_answers.specs.GarpFirst.{AreAnswered};

use crate::edition::Edition;
use crate::shared::certificate_from;
use rp_evidence::{Certificate, Item};
use rp_garp::GarpTest;
use rp_num::{NoMemory, Seq};
use rp_support::demand;
use rp_table::{Prices, Table};
use std::alloc::Global;

/// The report of demand at each record of new prices.
pub fn demand_text<P: Edition>(
    alloc: Global,
    table: &Table,
    new: &Prices,
    json: bool,
) -> Result<Vec<u8>, NoMemory>
    requires no_levels { table.now.levels ≡ [] }
    requires spent { IsSpentOn table.now new.now }
    ensures { IfOk result (λ text. IsDemandTextBy P.printed json table.now new.now text.items) }
{
    let certificate = demand_certificate(alloc, table, new)?;
    let text = P::print_certificate(alloc, table, certificate, json)?;
    Ok(text)
}

/// The certificate of demand at each record of new prices.
fn demand_certificate(alloc: Global, table: &Table, new: &Prices) -> Result<Certificate, NoMemory>
    requires no_levels { table.now.levels ≡ [] }
    requires spent { IsSpentOn table.now new.now }
    ensures { IfOk result (IsDemandCertificate (input_of_table table.now) new.now) }
{
    let tested = GarpTest::of(alloc, table)?;
    let items = demand_items(alloc, table, &tested, new)?;
    let certificate = certificate_from(alloc, table, tested.garp, items)?;
    Ok(certificate)
}

/// An item for each record of new prices.
fn demand_items(
    alloc: Global,
    table: &Table,
    tested: &GarpTest,
    new: &Prices,
) -> Result<Vec<Item>, NoMemory>
    requires no_levels { table.now.levels ≡ [] }
    requires is_test { IsTestOf table.now tested.now }
    requires spent { IsSpentOn table.now new.now }
    ensures { IfOk result (λ items. AreAnswered (rows_count new.now.prices new.now.goods)
        (λ i. IsDemandItem (input_of_table table.now) tested.now.garp
        (row_of new.now.prices new.now.goods i) (slice_index new.now.m i)) items.items) }
{
    let mut items = Vec::new(alloc);
    for i in 0..new.count() {
        let item = demand_item(alloc, table, tested, new.row(i), new.m(i))?;
        items.push(item)?;
    }
    Ok(items)
}

/// The item on the budget at these prices with `m`.
fn demand_item(
    alloc: Global,
    table: &Table,
    tested: &GarpTest,
    prices: &[u32],
    m: u64,
) -> Result<Item, NoMemory>
    requires no_levels { table.now.levels ≡ [] }
    requires is_test { IsTestOf table.now tested.now }
    requires prices { AreNewPrices (goods_of table.now) prices.now }
    requires spent { IsExpenditure m }
    ensures { IfOk result
        (IsDemandItem (input_of_table table.now) tested.now.garp prices.now m) }
{
    let demand = demand(alloc, table, tested, prices, m)?;
    let prices = Vec::from_slice(alloc, prices)?;
    Ok(Item::Demand {
        prices: Seq::from_vec(prices),
        m,
        part: demand,
    })
}
