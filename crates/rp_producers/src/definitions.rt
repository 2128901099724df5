//! What the definitions say in small cases. Each function is empty: its contract holds a definition in place, which fails
//! where a word of it is changed.
ghost use Rattle.std.specs.Prelude.{◌≡◌, ◌<◌, ◌≤◌, negsuc, ℕ};
ghost use Rattle.rp_evidence.specs.Demand.{FractionBundle};
ghost use Rattle.rp_evidence.specs.Input.{TableInput};
ghost use Rattle.rp_people.specs.Bundles.{AreEqualInValue, IsBundle};
ghost use Rattle.rp_producers.specs.ProductionSets.{IsConvexProductionSet, RationalizesProfit};
ghost use Rattle.rp_producers.specs.ProfitAxiom.{profit};
ghost use Rattle.rp_producers.specs.RequirementSets.{AreConvex, AreRequirementSets};
ghost use Rattle.rp_producers.specs.RequirementSets.{RationalizeCost};
ghost use Rattle.rp_producers.specs.SmallSets.{either_suffices, inputs_of};
ghost use Rattle.rp_producers.specs.SmallSets.{just_one_suffices, some_output, sum_suffices};

use crate::sets::InputSets;

/// Requirement sets: inputs that are equal in value suffice alike, and so do more of one input and as much of the other;
/// where each of two inputs alone suffices in an amount of 2, 1 of each does by convexity; and families that lack one
/// property are none.
pub fn requirement_sets_in_small_cases<S: InputSets>()
    ensures by_value { (goods output : ℕ)
        (x z : FractionBundle) → AreRequirementSets goods S.has → IsBundle x → IsBundle z
        → AreEqualInValue goods x z → S.has output x → S.has output z }
    ensures more_of_one { AreRequirementSets 2 S.has
        → S.has 3 (inputs_of 1 1) → S.has 2 (inputs_of 2 1) }
    ensures halves { (output : ℕ) → AreRequirementSets 2 S.has → AreConvex S.has
        → S.has output (inputs_of 2 0) → S.has output (inputs_of 0 2)
        → S.has output (inputs_of 1 1) }
    ensures sums { AreRequirementSets 2 sum_suffices × AreConvex sum_suffices }
    ensures either { AreRequirementSets 2 either_suffices × (¬ AreConvex either_suffices) }
    ensures not_disposable { ¬ AreRequirementSets 1 just_one_suffices }
    ensures not_nested { ¬ AreRequirementSets 1 some_output }
{}

/// What rationalizes: sets in which nothing suffices, or is feasible, rationalize no observation.
pub fn rationalizing_sets_in_small_cases()
    ensures none_suffices { (input : TableInput) (y : ℕ → ℕ) → 0 < input.n
        → ¬ RationalizeCost input y (λ output x. ⊥) }
    ensures none_feasible { (input : TableInput) (y p : ℕ → ℕ) → 0 < input.n
        → ¬ RationalizesProfit input y p (λ output x. ⊥) }
{}

/// Production sets: less output is feasible from the same inputs and from more, an output halfway between two from what is
/// halfway between their inputs; and what takes less output for none is no such set. Profit is the output at its price
/// less what the inputs cost.
pub fn production_sets_in_small_cases<S: InputSets>()
    ensures less_output { (goods low high : ℕ) (x : FractionBundle)
        → IsConvexProductionSet goods S.has → IsBundle x → low ≤ high
        → S.has high x → S.has low x }
    ensures by_value { (goods output : ℕ)
        (x z : FractionBundle) → IsConvexProductionSet goods S.has → IsBundle x → IsBundle z
        → AreEqualInValue goods x z → S.has output x → S.has output z }
    ensures halfway { IsConvexProductionSet 2 S.has
        → S.has 1 (inputs_of 2 0) → S.has 3 (inputs_of 0 2) → S.has 2 (inputs_of 1 1) }
    ensures sums { IsConvexProductionSet 2 sum_suffices }
    ensures not_disposable { ¬ IsConvexProductionSet 1 some_output }
    ensures profit { profit (λ t s. 7) (λ s. 2) (λ t. 3) 0 0 ≡ negsuc 0 }
{}
