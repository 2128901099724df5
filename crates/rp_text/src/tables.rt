//! Files that are tables, and their reader.
ghost use Rattle.std.specs.Prelude.{◌≡◌, ◌≤◌, [], Ok, None, IfOk, IfSome, All, length};
ghost use Rattle.rp_table.specs.Tables.{levels_given};
ghost use Rattle.rp_limits.specs.declared.table.TheConstants.{LARGEST};
ghost use Rattle.rp_text.specs.Denotation as Denotation;
ghost use Rattle.rp_text.specs.Denotation.{denoted_table, table_in};
ghost use Rattle.rp_sheet.specs.Refusals.{RefusedAs};

use crate::priced::priced_table;
use rp_forms::Form;
use rp_num::{NoMemory, Seq};
use rp_sheet::{
    Columns, FileKind, Records, Sheet, TableFault, column_numbers, narrow, read_file, read_kind,
    read_names,
};
use rp_table::{Name, Table};
use std::alloc::Global;

/// Reads columns `p_NAME` of prices and `q_NAME` of quantities by good, possibly `e` of own levels in thousandths, and
/// possibly `obs`, which says nothing. Prices are scaled by 10^k, where k is the most places that one of them has, and
/// quantities likewise by theirs.
#[tactic(auto, unfolding(crate::specs::Denotation::denoted_table))]
pub fn read_table(alloc: Global, bytes: &[u8]) -> Result<Table, TableFault>
    ensures denoted { IfOk result (λ table. table_in bytes.now ≡ Ok table) }
    ensures refused { RefusedAs result (table_in bytes.now) }
{
    read_file(alloc, bytes, &TableFile)
}

/// Reads a table, as `read_table` does, from records that are at hand: the first has the headers.
#[tactic(auto, unfolding(crate::specs::Denotation::denoted_table))]
pub fn read_table_of(alloc: Global, records: &Records) -> Result<Table, TableFault>
    ensures denoted { IfOk result (λ table. denoted_table records.now ≡ Ok table) }
    ensures refused { RefusedAs result (denoted_table records.now) }
{
    read_kind(alloc, records, &TableFile)
}

/// The kind of files that are tables.
pub struct TableFile;

impl FileKind for TableFile {
    ghost use Rattle.std.specs.Prelude.{⊤, []};
    ghost use Rattle.rp_forms.specs.Forms.{table_form};
    ghost use Rattle.rp_text.specs.Denotation.{table_of};

    type Value = Table;

    ghost form = { λ _. table_form };

    ghost goods = { λ _. [] };

    ghost value = { λ _. table_of };

    ghost fits = { λ _ _. ⊤ };

    fn form(&self) -> Form {
        Form::table()
    }

    fn goods(&self) -> &[Name] {
        &[]
    }

    fn make(&self, alloc: Global, sheet: &Sheet<'_>) -> Result<Table, NoMemory> {
        let columns = &sheet.columns;
        let sizes = sheet.sizes.as_slice();
        let names = read_names(alloc, columns)?;
        let levels = own_levels(alloc, columns, sizes)?;
        priced_table(
            alloc,
            columns,
            names,
            sheet.figures.as_slice(),
            sizes,
            levels,
        )
    }
}

/// The own levels by observation, where there is a column of them.
fn own_levels(
    alloc: Global,
    columns: &Columns<'_>,
    sizes: &[Seq<u64>],
) -> Result<Option<Vec<u32>>, NoMemory>
    requires { All (λ n. n ≤ LARGEST) (Denotation.own_levels columns.now.headers sizes.now) }
    ensures exact { IfOk result (λ levels. levels_given levels
        ≡ Denotation.own_levels columns.now.headers sizes.now) }
    ensures each { IfOk result
        (λ levels. IfSome levels (λ given. length given.items ≡ length sizes.now)) }
{
    if columns.find(b"e").is_none() {
        return Ok(None);
    }
    let numbers = column_numbers(alloc, columns, b"e", sizes)?;
    Ok(Some(narrow(alloc, numbers.as_slice())?))
}
