//! Files that are bundles, and their reader.
ghost use Rattle.std.specs.Prelude.{◌≡◌, ◌≤◌, Ok, IfOk};
ghost use Rattle.rp_table.specs.Rows.{rows_count};
ghost use Rattle.rp_table.specs.Tables.{goods_of};
ghost use Rattle.rp_text.specs.Denotation.{bundles_beside};
ghost use Rattle.rp_sheet.specs.Refusals.{RefusedAs};

use rp_forms::Form;
use rp_num::NoMemory;
use rp_sheet::{FileKind, Sheet, TableFault, numbers_under, read_file};
use rp_table::{Bundles, Name, Table};
use std::alloc::Global;

/// Reads bundles beside a table: a column `q_NAME` of quantities for each good of the table, and possibly a
/// column `obs` that says nothing. Quantities are scaled by the power of ten of the table's quantities.
#[tactic(auto, unfolding(crate::specs::Denotation::denoted_bundles))]
pub fn read_bundles(alloc: Global, bytes: &[u8], table: &Table) -> Result<Bundles, TableFault>
    ensures denoted { IfOk result (λ bundles. bundles_beside table.now bytes.now ≡ Ok bundles) }
    ensures refused { RefusedAs result (bundles_beside table.now bytes.now) }
    ensures goods { IfOk result (λ bundles. bundles.goods ≡ goods_of table.now) }
    ensures some_records { IfOk result
        (λ bundles. 1 ≤ rows_count bundles.quantities bundles.goods) }
{
    read_file(alloc, bytes, &BundlesFile(table))
}

/// The kind of files that are bundles beside a table.
#[derive(Drop)]
pub struct BundlesFile<'t>(pub &'t Table);

impl FileKind for BundlesFile<'_> {
    ghost use Rattle.std.specs.Prelude.{◌≡◌, ◌≤◌};
    ghost use Rattle.rp_forms.specs.Forms.{bundles_form};
    ghost use Rattle.rp_table.specs.Rows.{rows_count};
    ghost use Rattle.rp_table.specs.Tables.{goods_of};
    ghost use Rattle.rp_text.specs.Denotation.{bundles_of};

    type Value = Bundles;

    ghost form = { λ kind. bundles_form kind.0.now.quantity_places };

    ghost goods = { λ kind. kind.0.now.names };

    ghost value = { λ kind. bundles_of kind.0.now.quantity_places kind.0.now.names };

    ghost fits = { λ kind bundles. (bundles.goods ≡ goods_of kind.0.now)
        × (1 ≤ rows_count bundles.quantities bundles.goods) };

    fn form(&self) -> Form {
        Form::bundles(self.0.quantity_places())
    }

    fn goods(&self) -> &[Name] {
        self.0.names()
    }

    fn make(&self, alloc: Global, sheet: &Sheet<'_>) -> Result<Bundles, NoMemory> {
        let goods = self.0.goods();
        let names = self.0.names();
        let sizes = sheet.sizes.as_slice();
        let quantities = numbers_under(alloc, &sheet.columns, b"q_", names, sizes)?;
        Ok(Bundles::make(goods, quantities))
    }
}
