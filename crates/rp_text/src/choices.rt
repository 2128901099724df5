//! Files that are choices from budgets, and their reader.
ghost use Rattle.std.specs.Prelude.{◌≡◌, ℕ, ◌-◌, ◌<◌, ◌≤◌, Ok, IfOk, All, map, length};
ghost use Rattle.rp_sheet.specs.Chosen.{IsChosenFrom};
ghost use Rattle.rp_text.specs.Denotation.{choices_on};
ghost use Rattle.rp_sheet.specs.Refusals.{RefusedAs};

use rp_forms::Form;
use rp_limits::table::BUDGETS;
use rp_num::NoMemory;
use rp_sheet::{FileKind, Sheet, TableFault, column_numbers, narrow, numbers_under, read_file};
use rp_table::{Budgets, Choices, Name};
use std::alloc::Global;

/// Reads columns `budget` with numbers of these budgets from 1, `q_NAME` of quantities by good, `n` of counts and
/// possibly `obs`, which says nothing. Quantities are scaled by 10^k, where k is the most places that one of them has.
#[tactic(auto, unfolding(crate::specs::Denotation::denoted_choices))]
pub fn read_choices(alloc: Global, bytes: &[u8], budgets: &Budgets) -> Result<Choices, TableFault>
    ensures denoted { IfOk result (λ choices. choices_on budgets.now bytes.now ≡ Ok choices) }
    ensures refused { RefusedAs result (choices_on budgets.now bytes.now) }
    ensures goods { IfOk result (λ choices. choices.goods ≡ length budgets.now.names) }
    ensures some_choices { IfOk result (λ choices. 1 ≤ length choices.budget) }
    ensures on_budgets { IfOk result
        (λ choices. All (λ j. j < length budgets.now.w) choices.budget) }
    ensures every_budget { IfOk result
        (λ choices. (j : ℕ) → j < length budgets.now.w → IsChosenFrom choices j) }
{
    read_file(alloc, bytes, &ChoicesFile(budgets))
}

/// The kind of files that are choices from some budgets.
#[derive(Drop)]
pub struct ChoicesFile<'b>(pub &'b Budgets);

impl FileKind for ChoicesFile<'_> {
    ghost use Rattle.std.specs.Prelude.{◌≡◌, ◌<◌, ◌≤◌, ℕ, All, length};
    ghost use Rattle.rp_forms.specs.Forms.{choices_form};
    ghost use Rattle.rp_sheet.specs.Chosen.{IsChosenFrom};
    ghost use Rattle.rp_text.specs.Denotation.{choices_of};

    type Value = Choices;

    ghost form = { λ kind. choices_form (length kind.0.now.w) };

    ghost goods = { λ kind. kind.0.now.names };

    ghost value = { λ kind. choices_of (length kind.0.now.w) kind.0.now.names };

    ghost fits = { λ kind choices. (choices.goods ≡ length kind.0.now.names)
        × (1 ≤ length choices.budget)
        × All (λ j. j < length kind.0.now.w) choices.budget
        × ((j : ℕ) → j < length kind.0.now.w → IsChosenFrom choices j) };

    fn form(&self) -> Form {
        Form::choices(self.0.count())
    }

    fn goods(&self) -> &[Name] {
        self.0.names()
    }

    fn make(&self, alloc: Global, sheet: &Sheet<'_>) -> Result<Choices, NoMemory> {
        let goods = self.0.goods();
        let names = self.0.names();
        let columns = &sheet.columns;
        let sizes = sheet.sizes.as_slice();
        let numbers = column_numbers(alloc, columns, b"budget", sizes)?;
        let counts = column_numbers(alloc, columns, b"n", sizes)?;
        let budget = from_zero(alloc, numbers.as_slice())?;
        let quantities = numbers_under(alloc, columns, b"q_", names, sizes)?;
        let times = narrow(alloc, counts.as_slice())?;
        Ok(Choices::make(goods, budget, quantities, times))
    }
}

/// Numbers from 1 of budgets, as numbers from 0.
fn from_zero(alloc: Global, numbers: &[u64]) -> Result<Vec<u32>, NoMemory>
    requires { All (λ j. j < BUDGETS) (map (λ number. number - 1) numbers.now) }
    ensures { IfOk result (λ budget. budget.items ≡ map (λ number. number - 1) numbers.now) }
{
    let mut budget = Vec::new(alloc);
    for number in numbers {
        budget.push(number.saturating_sub(1) as u32)?;
    }
    Ok(budget)
}
