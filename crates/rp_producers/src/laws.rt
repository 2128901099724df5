//! Laws of producers: what the axioms and the bounds say of requirement sets.
ghost use Rattle.std.specs.Prelude.{◌↔◌, ◌*◌, ◌≤◌, ℕ};
ghost use Rattle.rp_evidence.specs.Demand.{FractionBundle, spending};
ghost use Rattle.rp_evidence.specs.Input.{TableInput};
ghost use Rattle.rp_evidence.specs.WelfareModels.{bundle_at};
ghost use Rattle.rp_people.specs.Bundles.{IsBundle};
ghost use Rattle.rp_producers.specs.CostAxiom.{MeetsCostAxiom};
ghost use Rattle.rp_producers.specs.OuterSet.{IsLowerCost, IsUpperCost};
ghost use Rattle.rp_producers.specs.ProfitAxiom.{MeetsProfitAxiom};
ghost use Rattle.rp_producers.specs.ProductionSets.{HasConvexProductionSet, HasProductionSet};
ghost use Rattle.rp_producers.specs.ProductionSets.{RationalizesProfit};
ghost use Rattle.rp_producers.specs.RequirementSets.{AreRequirementSets};
ghost use Rattle.rp_producers.specs.RequirementSets.{HasConvexRequirementSets};
ghost use Rattle.rp_producers.specs.RequirementSets.{HasRequirementSets, RationalizeCost};

use crate::sets::InputSets;

/// The cost axiom holds exactly where some nested and disposable requirement sets rationalize what was seen, and exactly
/// where some that are convex as well do.
pub fn cost_axiom_is_of_requirement_sets<S: InputSets>()
    ensures some { (input : TableInput) (y : ℕ → ℕ)
        → HasRequirementSets input y ↔ MeetsCostAxiom input.n input.cost y }
    ensures convex { (input : TableInput) (y : ℕ → ℕ)
        → HasConvexRequirementSets input y ↔ MeetsCostAxiom input.n input.cost y }
    ensures each { (input : TableInput) (y : ℕ → ℕ) → AreRequirementSets input.goods S.has
        → RationalizeCost input y S.has → MeetsCostAxiom input.n input.cost y }
{}

/// Under each such family, whatever suffices for an output costs at least the lower bound at the new prices, and the
/// inputs of the upper bound's observation suffice for it.
pub fn cost_bounds_hold_for_requirement_sets<S: InputSets>()
    ensures lower { (input : TableInput) (y : ℕ → ℕ)
        (y0 num den : ℕ) (prices : ℕ → ℕ) (x : FractionBundle)
        → AreRequirementSets input.goods S.has → RationalizeCost input y S.has
        → IsLowerCost input y y0 prices num den → IsBundle x → S.has y0 x
        → num * x.den ≤ spending input.goods prices x.num * den }
    ensures upper { (input : TableInput) (y : ℕ → ℕ) (y0 at cost : ℕ) (prices : ℕ → ℕ)
        → AreRequirementSets input.goods S.has → RationalizeCost input y S.has
        → IsUpperCost input y y0 prices at cost → S.has y0 (bundle_at input at) }
{}

/// The profit axiom holds exactly where some production set rationalizes what was seen, and exactly where one does that
/// is disposable and convex; any production set, whether or not a test decides it, only there.
pub fn profit_axiom_is_of_production_sets<S: InputSets>()
    ensures some { (input : TableInput) (y p : ℕ → ℕ)
        → HasProductionSet input y p ↔ MeetsProfitAxiom input.n input.cost y p }
    ensures convex { (input : TableInput) (y p : ℕ → ℕ)
        → HasConvexProductionSet input y p ↔ MeetsProfitAxiom input.n input.cost y p }
    ensures each { (input : TableInput) (y p : ℕ → ℕ)
        → RationalizesProfit input y p S.has → MeetsProfitAxiom input.n input.cost y p }
{}
