//! Laws of what people demand at new prices, and of what it is worth to them.
ghost use Rattle.std.specs.Prelude.{◌↔◌, ◌<◌, ◌≤◌, ℕ};
ghost use Rattle.rp_evidence.specs.Demand.{BudgetInput, FractionBundle, IsInfimum};
ghost use Rattle.rp_evidence.specs.Demand.{IsSupportingDemand, IsSupremum};
ghost use Rattle.rp_evidence.specs.DemandEvidence.{ProvesWelfareBounds};
ghost use Rattle.rp_evidence.specs.Input.{TableInput};
ghost use Rattle.rp_evidence.specs.declared.demand.Bound.{Bound};
ghost use Rattle.rp_people.specs.BoughtBundles.{IsBought, IsBoughtBy, IsBoughtByUtility};
ghost use Rattle.rp_people.specs.BoughtBundles.{IsInfimumBought, IsSupremumBought};
ghost use Rattle.rp_people.specs.Rationalizing.{Fits};
ghost use Rattle.rp_people.specs.TableChoices.{IsFullInput, choices_at};
ghost use Rattle.rp_people.specs.WelfareOfPeople.{BoundWelfareOfPeople, KeepsBounds};

use crate::relations::BundleRelation;

/// On a new budget at positive prices a bundle is a supporting demand exactly where some locally nonsatiated preference
/// that rationalizes the table has it at least as good as all that the budget affords, and then that of a strictly
/// monotone and concave utility does; so bounds of a good over supporting demands are those over all that such people
/// buy. What is bought by any one such preference, whatever relation it is, is a supporting demand.
pub fn supporting_demands_are_bought<P: BundleRelation>()
    ensures bought { (input : TableInput) (budget : BudgetInput) (x : FractionBundle)
        → IsFullInput input → ((g : ℕ) → g < input.goods → 1 ≤ budget.prices g)
        → IsSupportingDemand input budget x ↔ IsBought input budget x }
    ensures by_utility { (input : TableInput) (budget : BudgetInput) (x : FractionBundle)
        → IsFullInput input → ((g : ℕ) → g < input.goods → 1 ≤ budget.prices g)
        → IsSupportingDemand input budget x ↔ IsBoughtByUtility input budget x }
    ensures infimum { (input : TableInput) (budget : BudgetInput) (g num den : ℕ)
        → IsFullInput input → ((i : ℕ) → i < input.goods → 1 ≤ budget.prices i)
        → IsInfimum input budget g num den → IsInfimumBought input budget g num den }
    ensures supremum { (input : TableInput) (budget : BudgetInput) (g num den : ℕ)
        → IsFullInput input → ((i : ℕ) → i < input.goods → 1 ≤ budget.prices i)
        → IsSupremum input budget g num den → IsSupremumBought input budget g num den }
    ensures each { (input : TableInput) (budget : BudgetInput) (x : FractionBundle)
        → IsFullInput input → ((g : ℕ) → g < input.goods → 1 ≤ budget.prices g)
        → IsBoughtBy input budget P.prefers x → IsSupportingDemand input budget x }
{}

/// Welfare bounds hold for every person whose preference, whatever relation it is, is locally nonsatiated and
/// rationalizes the table.
pub fn welfare_bounds_hold_for_people<P: BundleRelation>()
    ensures people { (input : TableInput) (prices : ℕ → ℕ) (t upper at : ℕ) (lower : Bound)
        → ProvesWelfareBounds input prices t upper at lower
        → BoundWelfareOfPeople input prices t upper at lower }
    ensures each { (input : TableInput) (prices : ℕ → ℕ) (t upper at : ℕ) (lower : Bound)
        → ProvesWelfareBounds input prices t upper at lower → Fits (choices_at input 1 1) P.prefers
        → KeepsBounds input prices t at lower P.prefers }
{}
