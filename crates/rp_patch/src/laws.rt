//! Laws of patches. Each function is empty: its contract is the law.
ghost use Rattle.std.specs.Prelude.{◌≡◌, ◌<◌, ◌↔◌, ℕ, Option, length};
ghost use Rattle.rp_patch.specs.Added.{AddsPatches};
ghost use Rattle.rp_patch.specs.Apportionment.{counts_in};
ghost use Rattle.rp_patch.specs.Choices.{RandomInput, times_on};
ghost use Rattle.rp_patch.specs.FirstChoices.{AreNumberedByFirstChoice, times_in};
ghost use Rattle.rp_patch.specs.Mixtures.{HasMixture, IsGreatestShare};
ghost use Rattle.rp_patch.specs.Patches.{IsPatchList, PatchList};
ghost use Rattle.rp_patch.specs.Units.{ArePatchesOf, all_chosen, chosen_at, chosen_counts};

/// Added patches of no units change neither whether there is a mixture nor the greatest rational share.
pub fn patches_without_units_change_nothing()
    ensures mixtures { (p q : PatchList) (place : ℕ → ℕ)
        → AddsPatches p q place → HasMixture p ↔ HasMixture q }
    ensures shares { (p q : PatchList) (place : ℕ → ℕ) → AddsPatches p q place
        → (num den : ℕ) → IsGreatestShare p num den ↔ IsGreatestShare q num den }
{}

/// The patches of choices are those in which a choice falls that was made at least once. They are numbered by budget,
/// and on a budget by the first such choice; and what counts of a patch is how many times the choices were made that
/// fall in it. On a budget that is together how many times choices were made there.
pub fn patches_are_numbered_by_first_choice()
    ensures numbered { (input : RandomInput) (asked : Option ℕ) (p : PatchList)
        → ArePatchesOf input asked p → AreNumberedByFirstChoice input p }
    ensures times { (input : RandomInput) (asked : Option ℕ) (p : PatchList)
        → ArePatchesOf input asked p → (i : ℕ) → i < length p.patches
        → (chosen_at (all_chosen input) i).times ≡ times_in input p i }
    ensures together { (input : RandomInput) (j : ℕ) → j < input.budgets
        → counts_in (chosen_counts input) j ≡ times_on input j }
{}

/// Choices have at most one list of patches: its total, its patches and their units are those of every other.
pub fn patches_are_determined()
    ensures { (input : RandomInput) (asked : Option ℕ) (one other : PatchList)
        → ArePatchesOf input asked one → IsPatchList one
        → ArePatchesOf input asked other → IsPatchList other → one ≡ other }
{}
