//! Files that are new prices, and their reader.
ghost use Rattle.std.specs.Prelude.{◌≡◌, ◌≤◌, [], Ok, IfOk, IsTrue, length, codes, if◌then◌else◌};
ghost use Rattle.rp_table.specs.Rows.{rows_count};
ghost use Rattle.rp_table.specs.Tables.{goods_of};
ghost use Rattle.rp_sheet.specs.Sheets as Sheets;
ghost use Rattle.rp_text.specs.Denotation.{prices_beside};
ghost use Rattle.rp_sheet.specs.Refusals.{RefusedAs};

use rp_forms::Form;
use rp_num::{NoMemory, Seq};
use rp_sheet::{Columns, FileKind, Sheet, TableFault, column_numbers, numbers_under, read_file};
use rp_table::{Name, Prices, Table};
use std::alloc::Global;

/// Reads columns `p_NAME` of prices by good, `m` of expenditures if asked for and possibly `obs`, which says nothing.
/// Prices are scaled by 10^k for the most places k of one of them, expenditures by 10^k and the table's quantity scale.
#[tactic(auto, unfolding(crate::specs::Denotation::denoted_prices))]
pub fn read_prices(
    alloc: Global,
    bytes: &[u8],
    table: &Table,
    with_m: bool,
) -> Result<Prices, TableFault>
    ensures denoted { IfOk result (λ prices. prices_beside with_m table.now bytes.now ≡ Ok prices) }
    ensures refused { RefusedAs result (prices_beside with_m table.now bytes.now) }
    ensures goods { IfOk result (λ prices. prices.goods ≡ goods_of table.now) }
    ensures some_records { IfOk result (λ prices. 1 ≤ rows_count prices.prices prices.goods) }
    ensures each_spent { IsTrue with_m
        → IfOk result (λ prices. length prices.m ≡ rows_count prices.prices prices.goods) }
{
    read_file(alloc, bytes, &PricesFile { table, with_m })
}

/// The kind of files that are new prices beside a table, with expenditures or without.
#[derive(Drop)]
pub struct PricesFile<'t> {
    pub table: &'t Table,
    pub with_m: bool,
}

impl FileKind for PricesFile<'_> {
    ghost use Rattle.std.specs.Prelude.{◌≡◌, ◌≤◌, IsTrue, length};
    ghost use Rattle.rp_forms.specs.Forms.{prices_form};
    ghost use Rattle.rp_table.specs.Rows.{rows_count};
    ghost use Rattle.rp_table.specs.Tables.{goods_of};
    ghost use Rattle.rp_text.specs.Denotation.{prices_of};

    type Value = Prices;

    ghost form = { λ kind. prices_form kind.with_m kind.table.now.quantity_places };

    ghost goods = { λ kind. kind.table.now.names };

    ghost value = { λ kind. prices_of kind.with_m kind.table.now.quantity_places
        kind.table.now.names };

    ghost fits = { λ kind prices. (prices.goods ≡ goods_of kind.table.now)
        × (1 ≤ rows_count prices.prices prices.goods)
        × (IsTrue kind.with_m → length prices.m ≡ rows_count prices.prices prices.goods) };

    fn form(&self) -> Form {
        Form::prices(self.with_m, self.table.quantity_places())
    }

    fn goods(&self) -> &[Name] {
        self.table.names()
    }

    fn make(&self, alloc: Global, sheet: &Sheet<'_>) -> Result<Prices, NoMemory> {
        let goods = self.table.goods();
        let names = self.table.names();
        let sizes = sheet.sizes.as_slice();
        let prices = numbers_under(alloc, &sheet.columns, b"p_", names, sizes)?;
        let m = expenditures(alloc, &sheet.columns, sizes, self.with_m)?;
        Ok(Prices::make(goods, prices, m))
    }
}

/// The scaled expenditures where they are asked for, by record.
fn expenditures(
    alloc: Global,
    columns: &Columns<'_>,
    sizes: &[Seq<u64>],
    with_m: bool,
) -> Result<Vec<u64>, NoMemory>
    ensures { IfOk result (λ m. m.items
        ≡ (if with_m then Sheets.column_numbers (codes "m") columns.now.headers sizes.now
        else [])) }
{
    if with_m {
        column_numbers(alloc, columns, b"m", sizes)
    } else {
        Ok(Vec::new(alloc))
    }
}
