//! A law of choices in files. Its function is empty: its contract is the law.
ghost use Rattle.std.specs.Prelude.{◌≡◌, List, Ok, ℕ};
ghost use Rattle.rp_patch.specs.Choices.{random_input_of};
ghost use Rattle.rp_persons.specs.PersonMixtures.{IsFullRandomInput};
ghost use Rattle.rp_table.specs.BudgetLists.{BudgetList, IsBudgetList};
ghost use Rattle.rp_table.specs.ChoiceLists.{ChoiceList};
ghost use Rattle.rp_text.specs.Denotation.{budgets_in, choices_on};

/// Choices that a file denotes beside budgets within the limits are full: there are goods, no price is 0, and each chosen
/// bundle costs something on its budget, so that an item on random choices says of persons what it says.
pub fn choices_in_files_are_full()
    ensures beside { (budgets : BudgetList) (bytes : List ℕ) (choices : ChoiceList)
        → IsBudgetList budgets
        → choices_on budgets bytes ≡ Ok choices
        → IsFullRandomInput (random_input_of budgets choices) }
    ensures files { (first second : List ℕ) (budgets : BudgetList) (choices : ChoiceList)
        → budgets_in first ≡ Ok budgets → choices_on budgets second ≡ Ok choices
        → IsFullRandomInput (random_input_of budgets choices) }
{}
