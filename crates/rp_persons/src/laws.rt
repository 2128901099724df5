//! Laws of persons who choose from budgets, and of their mixtures.
ghost use Rattle.std.specs.Prelude.{◌≡◌, ◌*◌, ◌↔◌, All, List, ℕ, Option};
ghost use Rattle.rp_evidence.specs.declared.certificate.Item.{Item};
ghost use Rattle.rp_evidence.specs.declared.random.RandomPart.{RandomPart};
ghost use Rattle.rp_patch.specs.Choices.{RandomInput};
ghost use Rattle.rp_patch.specs.Mixtures.{HasMixture, IsGreatestShare};
ghost use Rattle.rp_patch.specs.Patches.{IsPatchList, PatchList};
ghost use Rattle.rp_patch.specs.RandomEvidence.{ProvesOnPatches, ProvesRandom};
ghost use Rattle.rp_patch.specs.Signs.{cost_on, signs_of};
ghost use Rattle.rp_patch.specs.Units.{ArePatchesOf};
ghost use Rattle.rp_persons.specs.OfAnyPersons.{MakeAtMost, SaysOfAny};
ghost use Rattle.rp_persons.specs.PersonMixtures.{IsFullRandomInput, IsGreatestShareOfPersons};
ghost use Rattle.rp_persons.specs.PersonMixtures.{MakeChoices, PersonShare};
ghost use Rattle.rp_persons.specs.PersonMixtures.{SomePersonsMakeChoices};
ghost use Rattle.rp_persons.specs.PersonMixtures.{SomeWithUtilitiesMakeChoices};
ghost use Rattle.rp_persons.specs.Persons.{scaled_choice, signs_of_bundle};
ghost use Rattle.rp_persons.specs.SaysRandom.{SaysOfChoices, SaysOnPatches};
ghost use Rattle.rp_table.specs.Spending.{spending};

use crate::relations::PersonRelations;

/// A chosen bundle, scaled to cost the income of the budget that it was chosen from, costs just that, and lies on the
/// same side of every budget as its patch.
pub fn chosen_bundles_scale()
    ensures spent { (input : RandomInput) (c : ℕ)
        → spending input.goods (input.price (input.budget c))
        (scaled_choice input (input.budget c) c).num
        ≡ cost_on input (input.budget c) c * input.income (input.budget c) }
    ensures signs { (input : RandomInput) (c : ℕ)
        → signs_of_bundle input (scaled_choice input (input.budget c) c) ≡ signs_of input c }
{}

/// A mixture of rational types makes the choices exactly where finitely many persons do, each of whom takes from every
/// budget a best bundle by a locally nonsatiated preference of the person's own, and uses a listed patch there; and
/// then persons do who have strictly monotone and concave utilities. Persons with any preferences, whatever relations
/// these are, make them only there.
pub fn mixtures_are_of_persons<P: PersonRelations>()
    ensures preferences { (input : RandomInput) (asked : Option ℕ) (p : PatchList)
        → IsFullRandomInput input → ArePatchesOf input asked p → IsPatchList p
        → HasMixture p ↔ SomePersonsMakeChoices input p }
    ensures utilities { (input : RandomInput) (asked : Option ℕ) (p : PatchList)
        → IsFullRandomInput input → ArePatchesOf input asked p → IsPatchList p
        → HasMixture p ↔ SomeWithUtilitiesMakeChoices input p }
    ensures each { (input : RandomInput) (asked : Option ℕ) (p : PatchList)
        → IsFullRandomInput input → ArePatchesOf input asked p → IsPatchList p
        → (den : ℕ) (persons : List (PersonShare ℕ))
        → MakeChoices input p P.prefers den persons → HasMixture p }
{}

/// The greatest rational share is the greatest share of the choices that persons make: some with utilities make it, and
/// no persons with locally nonsatiated preferences, whatever relations these are and however many there are, make more.
pub fn greatest_shares_are_of_persons<P: PersonRelations>()
    ensures persons { (input : RandomInput) (asked : Option ℕ) (p : PatchList) → IsFullRandomInput input
        → ArePatchesOf input asked p → IsPatchList p → (num den : ℕ)
        → IsGreatestShare p num den ↔ IsGreatestShareOfPersons input p num den }
    ensures each { (input : RandomInput) (asked : Option ℕ) (p : PatchList)
        → IsFullRandomInput input → ArePatchesOf input asked p → IsPatchList p → (num den : ℕ)
        → IsGreatestShare p num den → MakeAtMost input p P.prefers num den }
{}

/// Evidence that proves its verdict on patches, and items, say of people what that kind of verdict says, also of persons
/// whose preferences are any relations.
pub fn proved_random_items_say<P: PersonRelations>()
    ensures evidence { (p : PatchList) (total : ℕ) (part : RandomPart) → IsPatchList p
        → ProvesRandom p total part → SaysOfChoices p part }
    ensures items { (p : PatchList) (items : List Item) → IsPatchList p
        → All (ProvesOnPatches p) items → All (SaysOnPatches p) items }
    ensures each { (p : PatchList) (total : ℕ) (part : RandomPart) → IsPatchList p
        → ProvesRandom p total part → SaysOfAny p P.prefers part }
{}
