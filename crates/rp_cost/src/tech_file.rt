//! Files that are technologies, and their reader.
ghost use Rattle.std.specs.Prelude.{◌≡◌, Ok, IfOk, All, codes};
ghost use Rattle.rp_sheet.specs.Refusals.{RefusedAs};
ghost use Rattle.rp_sheet.specs.Sheets as Sheets;
ghost use Rattle.rp_table.specs.Limits.{IsPrice, IsQuantity};
ghost use Rattle.rp_cost.specs.Denotation as Denotation;
ghost use Rattle.rp_cost.specs.Denotation.{tech_in};

use crate::tech::Tech;
use rp_forms::Form;
use rp_num::{NoMemory, Seq};
use rp_sheet::{
    Columns, FileKind, Sheet, TableFault, column_numbers, narrow, read_file, read_names,
};
use rp_table::Name;
use rp_text::priced_table;
use std::alloc::Global;

/// Reads columns `w_NAME` of prices and `x_NAME` of quantities by input, `y` of outputs, possibly `p` of the output's
/// prices and possibly `obs`, which says nothing. All prices are scaled by 10^k, where k is the most places that one of
/// them has, and inputs and outputs likewise by theirs. An output may be 0; at least one input is not.
#[tactic(auto, unfolding(crate::specs::Denotation::denoted_tech))]
pub fn read_tech(alloc: Global, bytes: &[u8]) -> Result<Tech, TableFault>
    ensures denoted { IfOk result (λ tech. tech_in bytes.now ≡ Ok tech) }
    ensures refused { RefusedAs result (tech_in bytes.now) }
{
    read_file(alloc, bytes, &TechFile)
}

/// The kind of files that are technologies.
pub struct TechFile;

impl FileKind for TechFile {
    ghost use Rattle.std.specs.Prelude.{⊤, []};
    ghost use Rattle.rp_forms.specs.Forms.{technology_form};
    ghost use Rattle.rp_cost.specs.Denotation.{tech_of};

    type Value = Tech;

    ghost form = { λ _. technology_form };

    ghost goods = { λ _. [] };

    ghost value = { λ _. tech_of };

    ghost fits = { λ _ _. ⊤ };

    fn form(&self) -> Form {
        Form::technology()
    }

    fn goods(&self) -> &[Name] {
        &[]
    }

    fn make(&self, alloc: Global, sheet: &Sheet<'_>) -> Result<Tech, NoMemory> {
        let columns = &sheet.columns;
        let sizes = sheet.sizes.as_slice();
        let names = read_names(alloc, columns)?;
        let table = priced_table(alloc, columns, names, sheet.figures.as_slice(), sizes, None)?;
        let outputs = outputs(alloc, columns, sizes)?;
        let output_prices = output_prices(alloc, columns, sizes)?;
        Ok(Tech::make(table, outputs, output_prices))
    }
}

/// The scaled outputs, by record.
pub(crate) fn outputs(
    alloc: Global,
    columns: &Columns<'_>,
    sizes: &[Seq<u64>],
) -> Result<Vec<u32>, NoMemory>
    requires { All IsQuantity (Sheets.column_numbers (codes "y") columns.now.headers sizes.now) }
    ensures { IfOk result (λ y. y.items
        ≡ Sheets.column_numbers (codes "y") columns.now.headers sizes.now) }
{
    narrow(
        alloc,
        column_numbers(alloc, columns, b"y", sizes)?.as_slice(),
    )
}

/// The scaled prices of the output by record, where there is a column of them.
fn output_prices(
    alloc: Global,
    columns: &Columns<'_>,
    sizes: &[Seq<u64>],
) -> Result<Vec<u32>, NoMemory>
    requires { All IsPrice (Denotation.output_prices columns.now.headers sizes.now) }
    ensures { IfOk result (λ p. p.items
        ≡ Denotation.output_prices columns.now.headers sizes.now) }
{
    if columns.find(b"p").is_none() {
        return Ok(Vec::new(alloc));
    }
    narrow(
        alloc,
        column_numbers(alloc, columns, b"p", sizes)?.as_slice(),
    )
}
