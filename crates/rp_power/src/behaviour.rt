//! The table that a random behaviour gives.
ghost use Rattle.std.specs.Prelude.{◌≡◌, ◌*◌, ◌<◌, ◌≤◌, ◌^◌, [], IfOk, OnOk, length};
ghost use Rattle.rp_num.specs.Below.{listed, rows_below};
ghost use Rattle.rp_power.specs.DrawnTable.{affordable, drawn_quantity, drawn_table};
ghost use Rattle.rp_power.specs.PowerCount.{words_of};
ghost use Rattle.rp_table.specs.Cost.{IsCostsOf};
ghost use Rattle.rp_table.specs.Tables.{goods_of, records_of};
ghost use Rattle.rp_limits.specs.declared.table.TheConstants.{GOODS, LARGEST};

use crate::shares::{draw_shares, leave_not_all_zero, total};
use rp_limits::table::LARGEST;
use rp_num::NoMemory;
use rp_table::{Costs, Name, Table};
use std::alloc::Global;

/// The table of the behaviour that the words draw, one word for each observation and then good. Names, prices and
/// places are those of the table.
pub fn drawn(alloc: Global, table: &Table, costs: &Costs, words: &[u32]) -> Result<Table, NoMemory>
    requires no_levels { table.now.levels ≡ [] }
    requires of_table { IsCostsOf costs.now table.now }
    requires words { length words.now ≡ words_of table.now }
    ensures { IfOk result (λ drawn. drawn ≡ drawn_table table.now words.now) }
{
    let names = copy_names(alloc, table)?;
    let prices = copy_prices(alloc, table)?;
    let mut shares = Vec::new(alloc);
    let mut bundle = Vec::new(alloc);
    let mut quantities = Vec::new(alloc);
    draw_quantities(
        table,
        costs,
        words,
        &mut shares,
        &mut bundle,
        &mut quantities,
    )?;
    prove!(table.n() > 0);
    Ok(Table::make(
        names,
        prices,
        quantities,
        table.price_places(),
        table.quantity_places(),
        None,
    ))
}

/// The names of a table's goods.
pub fn copy_names(alloc: Global, table: &Table) -> Result<Vec<Name>, NoMemory>
    ensures { IfOk result (λ names. names.items ≡ table.now.names) }
{
    let mut names = Vec::new(alloc);
    for name in table.names() {
        names.push(Name::new(Vec::from_slice(alloc, name.as_bytes())?))?;
    }
    Ok(names)
}

/// The prices of a table, by observation and then good.
pub fn copy_prices(alloc: Global, table: &Table) -> Result<Vec<u32>, NoMemory>
    ensures { IfOk result (λ prices. prices.items ≡ table.now.prices) }
{
    let mut prices = Vec::new(alloc);
    for t in 0..table.n() {
        prices.extend_from_slice(table.prices(t))?;
    }
    Ok(prices)
}

/// Fills `quantities` with the drawn ones, by observation and then good. The shares and the bundle of one observation
/// at a time stand in `shares` and `bundle`.
pub(crate) fn draw_quantities(
    table: &Table,
    costs: &Costs,
    words: &[u32],
    shares: &mut Vec<u32>,
    bundle: &mut Vec<u32>,
    quantities: &mut Vec<u32>,
) -> Result<(), NoMemory>
    requires of_table { IsCostsOf costs.now table.now }
    requires words { length words.now ≡ words_of table.now }
    ensures { OnOk result (quantities.new.items
        ≡ rows_below (records_of table.now) (goods_of table.now)
        (drawn_quantity table.now words.now)) }
{
    quantities.clear();
    for t in 0..table.n() {
        draw_bundle(table, costs, words, t, shares, bundle)?;
        quantities.extend_from_slice(bundle.as_slice())?;
    }
    Ok(())
}

/// Fills `bundle` with the drawn quantity of each good at observation `t`, not all 0, and `shares` with their shares.
fn draw_bundle(
    table: &Table,
    costs: &Costs,
    words: &[u32],
    t: u32,
    shares: &mut Vec<u32>,
    bundle: &mut Vec<u32>,
) -> Result<(), NoMemory>
    requires of_table { IsCostsOf costs.now table.now }
    requires words { length words.now ≡ words_of table.now }
    requires observed { t < records_of table.now }
    ensures { OnOk result (bundle.new.items
        ≡ listed (goods_of table.now) (drawn_quantity table.now words.now t)) }
{
    let goods = table.goods();
    draw_shares(table, words, t, shares)?;
    let total = total(shares.as_slice());
    bundle.clear();
    for g in 0..goods {
        let share = shares[g as usize];
        let price = table.price(t, g);
        bundle.push(affordable(costs.cost(t, t), share, total, price))?;
    }
    leave_not_all_zero(bundle);
    Ok(())
}

/// The quantity of a good that a share of an expenditure buys at the good's price; the expenditure is scaled by both
/// scales, the quantity and the price by theirs.
fn affordable(spent: u64, share: u32, total: u64, price: u32) -> u32
    requires spent { spent < 2 ^ 51 }
    requires share { share < 100 }
    requires some { 1 ≤ total }
    requires few { total ≤ GOODS * LARGEST }
    requires priced { 1 ≤ price }
    requires price { price ≤ LARGEST }
    ensures exact { result ≡ affordable spent share total price }
    ensures within { result ≤ LARGEST }
{
    let quantity = spent * u64::from(share) / (total * u64::from(price));
    if quantity < u64::from(LARGEST) {
        quantity as u32
    } else {
        LARGEST
    }
}
