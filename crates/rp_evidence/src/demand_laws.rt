//! Laws of supporting demand at new prices. Each function is empty: its contract is the law.
ghost use Rattle.std.specs.Prelude.{◌≡◌, ◌↔◌, ◌<◌, ◌≤◌, ℕ, All, List, length};
ghost use Rattle.rp_farkas.specs.EqualPair.{IsEqualPair};
ghost use Rattle.rp_table.specs.Cost.{cost_of};
ghost use Rattle.rp_table.specs.Tables.{IsTable, Observations, goods_of, records_of};
ghost use Rattle.rp_evidence.specs.Demand.{BudgetInput, CostsEnough, CostsMore, FractionBundle};
ghost use Rattle.rp_evidence.specs.Demand.{HasInnerSupport, HasSupport, IsInfimum};
ghost use Rattle.rp_evidence.specs.Demand.{IsInnerDemand, IsOnBudget, IsSupportingDemand};
ghost use Rattle.rp_evidence.specs.Demand.{IsStrictStart, IsStrictlyBelow, IsSupremum};
ghost use Rattle.rp_evidence.specs.Demand.{mixed};
ghost use Rattle.rp_evidence.specs.DemandEvidence.{budget_of};
ghost use Rattle.rp_evidence.specs.DemandPrograms.{lower_program, upper_program};
ghost use Rattle.rp_evidence.specs.Garp.{MeetsGarp};
ghost use Rattle.rp_evidence.specs.Input.{TableInput, input_of_table};
ghost use Rattle.rp_evidence.specs.SupportedBudget.{SupportedBudget};
ghost use Rattle.rp_evidence.specs.Welfare.{EqualsOrReaches};

/// An observation is strictly below exactly where it is, or is reached from, one whose bundle the budget buys with
/// money left, or to which an observation below is strictly preferred.
pub fn strictly_below_from_strict_starts()
    ensures { (input : TableInput) (budget : BudgetInput) (t : ℕ) → IsStrictlyBelow input budget t
        ↔ ((v : ℕ) × (v < input.n) × IsStrictStart input budget v × EqualsOrReaches input v t) }
{}

/// Where the table meets the axiom, a bundle on the budget is a supporting demand exactly where it costs at least
/// what was spent at every observation below, and more at every one strictly below.
pub fn supporting_demands_cost_enough()
    ensures { (input : TableInput) (budget : BudgetInput) (bundle : FractionBundle)
        → MeetsGarp input.n input.cost → IsOnBudget input budget bundle
        → IsSupportingDemand input budget bundle
        ↔ (CostsEnough input budget bundle × CostsMore input budget bundle) }
{}

/// Where the table meets the axiom, the inner demand is a supporting demand.
pub fn inner_demands_support()
    ensures { (input : TableInput) (budget : BudgetInput) (bundle : FractionBundle)
        → MeetsGarp input.n input.cost → 0 < input.goods → 0 < budget.prices 0
        → ((t : ℕ) → t < input.n → 0 < input.price t 0)
        → IsInnerDemand input budget bundle → IsSupportingDemand input budget bundle }
{}

/// Where the table meets the axiom there is an inner demand at every positive prices and every expenditure, whatever
/// their size, and it is a supporting demand; so the set of supporting demands is never empty.
pub fn inner_demands_exist()
    ensures inner { (input : TableInput) (budget : BudgetInput)
        → MeetsGarp input.n input.cost → 0 < input.goods → 0 < budget.prices 0
        → ((t : ℕ) → t < input.n → 0 < input.price t 0) → HasInnerSupport input budget }
    ensures of_tables { (table : Observations) (prices : List ℕ) (m : ℕ)
        → IsTable table → MeetsGarp (records_of table) (cost_of table)
        → length prices ≡ goods_of table → All (λ p. 1 ≤ p) prices
        → HasInnerSupport (input_of_table table) (budget_of prices m) }
    ensures never_empty { (table : Observations) (prices : List ℕ) (m : ℕ)
        → IsTable table → MeetsGarp (records_of table) (cost_of table)
        → length prices ≡ goods_of table → All (λ p. 1 ≤ p) prices
        → HasSupport (input_of_table table) (budget_of prices m) }
{}

/// Where the table meets the axiom, each mixture of a bundle on the budget that costs enough with a supporting demand
/// is a supporting demand, however little of the latter it has.
pub fn mixtures_support()
    ensures { (input : TableInput) (budget : BudgetInput) (bundle inner : FractionBundle) (k : ℕ)
        → MeetsGarp input.n input.cost → 0 < k
        → IsOnBudget input budget bundle → CostsEnough input budget bundle
        → IsSupportingDemand input budget inner
        → IsSupportingDemand input budget (mixed k bundle inner) }
{}

/// Where the table meets the axiom and some demand supports, an equal pair of a good's lower program has the infimum
/// of the good on its price side, and one of its upper program the supremum.
pub fn equal_pairs_bound_goods()
    ensures lower { (at : SupportedBudget) (g den : ℕ) (y x : ℕ → ℕ) → g < at.input.goods
        → IsEqualPair (lower_program at.input at.budget at.below g) den y x
        → IsInfimum at.input at.budget g (x g) den }
    ensures upper { (at : SupportedBudget) (g den : ℕ) (y x : ℕ → ℕ) → g < at.input.goods
        → 0 < at.budget.prices g
        → IsEqualPair (upper_program at.input at.budget at.below g) den y x
        → IsSupremum at.input at.budget g (x g) den }
{}
