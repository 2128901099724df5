//! Files that are budgets, and their reader.
ghost use Rattle.std.specs.Prelude.{◌≡◌, Ok, IfOk};
ghost use Rattle.rp_text.specs.Denotation.{budgets_in};
ghost use Rattle.rp_sheet.specs.Refusals.{RefusedAs};

use rp_forms::Form;
use rp_num::NoMemory;
use rp_sheet::{FileKind, Sheet, TableFault, column_numbers, numbers_under, read_file, read_names};
use rp_table::{Budgets, Name};
use std::alloc::Global;

/// Reads columns `p_NAME` of prices by good, `w` of incomes and possibly `obs`, which says nothing. Prices are scaled
/// by 10^k, where k is the most places that one of them has, and incomes likewise by theirs.
#[tactic(auto, unfolding(crate::specs::Denotation::denoted_budgets))]
pub fn read_budgets(alloc: Global, bytes: &[u8]) -> Result<Budgets, TableFault>
    ensures denoted { IfOk result (λ budgets. budgets_in bytes.now ≡ Ok budgets) }
    ensures refused { RefusedAs result (budgets_in bytes.now) }
{
    read_file(alloc, bytes, &BudgetsFile)
}

/// The kind of files that are budgets.
pub struct BudgetsFile;

impl FileKind for BudgetsFile {
    ghost use Rattle.std.specs.Prelude.{⊤, []};
    ghost use Rattle.rp_forms.specs.Forms.{budgets_form};
    ghost use Rattle.rp_text.specs.Denotation.{budgets_of};

    type Value = Budgets;

    ghost form = { λ _. budgets_form };

    ghost goods = { λ _. [] };

    ghost value = { λ _. budgets_of };

    ghost fits = { λ _ _. ⊤ };

    fn form(&self) -> Form {
        Form::budgets()
    }

    fn goods(&self) -> &[Name] {
        &[]
    }

    fn make(&self, alloc: Global, sheet: &Sheet<'_>) -> Result<Budgets, NoMemory> {
        let columns = &sheet.columns;
        let sizes = sheet.sizes.as_slice();
        let names = read_names(alloc, columns)?;
        let prices = numbers_under(alloc, columns, b"p_", names.as_slice(), sizes)?;
        let w = column_numbers(alloc, columns, b"w", sizes)?;
        Ok(Budgets::make(names, prices, w))
    }
}
