//! The answer of `welfare`.
ghost use Rattle.std.specs.Prelude.{◌≡◌, [], ◌<◌, ◌*◌, ◌/◌, ◌%◌, IfOk};
ghost use Rattle.rp_evidence.specs.Input.{input_of_table};
ghost use Rattle.rp_garp.specs.Test.{IsTestOf};
ghost use Rattle.rp_table.specs.NewPrices.{AreNewPrices};
ghost use Rattle.rp_table.specs.Rows.{row_of, rows_count};
ghost use Rattle.rp_table.specs.Tables.{goods_of, records_of};
ghost use Rattle.rp_answers.specs.GarpFirst.{AreAnswered};
ghost use Rattle.rp_answers.specs.WelfareText.{IsWelfareCertificate, IsWelfareItem};
ghost use Rattle.rp_answers.specs.WelfareText.{IsWelfareTextBy};

use crate::edition::Edition;
use crate::shared::certificate_from;
use rp_evidence::{Certificate, Item};
use rp_garp::GarpTest;
use rp_num::{NoMemory, Seq};
use rp_table::{Prices, Table};
use rp_welfare::welfare;
use std::alloc::Global;

/// The report of the bounds of each observation at each record of new prices.
pub fn welfare_text<P: Edition>(
    alloc: Global,
    table: &Table,
    new: &Prices,
    json: bool,
) -> Result<Vec<u8>, NoMemory>
    requires no_levels { table.now.levels ≡ [] }
    requires goods { new.now.goods ≡ goods_of table.now }
    ensures { IfOk result (λ text. IsWelfareTextBy P.printed json table.now new.now text.items) }
{
    let certificate = welfare_certificate(alloc, table, new)?;
    let text = P::print_certificate(alloc, table, certificate, json)?;
    Ok(text)
}

/// The certificate of the bounds of each observation at each record of new prices.
fn welfare_certificate(alloc: Global, table: &Table, new: &Prices) -> Result<Certificate, NoMemory>
    requires no_levels { table.now.levels ≡ [] }
    requires goods { new.now.goods ≡ goods_of table.now }
    ensures { IfOk result (IsWelfareCertificate (input_of_table table.now) new.now) }
{
    let tested = GarpTest::of(alloc, table)?;
    let items = welfare_items(alloc, table, &tested, new)?;
    let certificate = certificate_from(alloc, table, tested.garp, items)?;
    Ok(certificate)
}

/// For each record of new prices an item for each observation.
fn welfare_items(
    alloc: Global,
    table: &Table,
    tested: &GarpTest,
    new: &Prices,
) -> Result<Vec<Item>, NoMemory>
    requires no_levels { table.now.levels ≡ [] }
    requires is_test { IsTestOf table.now tested.now }
    requires goods { new.now.goods ≡ goods_of table.now }
    ensures { IfOk result (λ items. AreAnswered
        (rows_count new.now.prices new.now.goods * records_of table.now)
        (λ k. IsWelfareItem (input_of_table table.now) tested.now.garp
        (row_of new.now.prices new.now.goods (k / records_of table.now)) (k % records_of table.now))
        items.items) }
{
    let n = table.n();
    let mut items = Vec::new(alloc);
    for k in 0..new.count() * n {
        let item = welfare_item(alloc, table, tested, new.row(k / n), k % n)?;
        items.push(item)?;
    }
    Ok(items)
}

/// The item on observation `t` at these prices.
fn welfare_item(
    alloc: Global,
    table: &Table,
    tested: &GarpTest,
    prices: &[u32],
    t: u32,
) -> Result<Item, NoMemory>
    requires no_levels { table.now.levels ≡ [] }
    requires is_test { IsTestOf table.now tested.now }
    requires prices { AreNewPrices (goods_of table.now) prices.now }
    requires observed { t < records_of table.now }
    ensures { IfOk result
        (IsWelfareItem (input_of_table table.now) tested.now.garp prices.now t) }
{
    let welfare = welfare(alloc, table, tested, prices, t)?;
    let prices = Vec::from_slice(alloc, prices)?;
    Ok(Item::Welfare {
        prices: Seq::from_vec(prices),
        of: t,
        part: welfare,
    })
}
