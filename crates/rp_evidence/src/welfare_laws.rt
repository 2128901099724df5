//! Laws of the welfare bounds. Each function is empty: its contract is the law.
ghost use Rattle.std.specs.Prelude.{◌<◌, ℕ, ℤ, List, pos, ◌*ℤ◌, ◌≤ℤ◌};
ghost use Rattle.rp_farkas.specs.EqualPair.{IsEqualPair};
ghost use Rattle.rp_farkas.specs.Ray.{IsRay};
ghost use Rattle.rp_evidence.specs.Afriat.{IsAfriatModel};
ghost use Rattle.rp_evidence.specs.BoundEvidence.{NoneWorthMore};
ghost use Rattle.rp_evidence.specs.Demand.{FractionBundle, spending};
ghost use Rattle.rp_evidence.specs.DemandEvidence.{ProvesWelfare};
ghost use Rattle.rp_evidence.specs.Garp.{MeetsGarp};
ghost use Rattle.rp_evidence.specs.Input.{TableInput};
ghost use Rattle.rp_evidence.specs.LeastCost.{least_cost_program};
ghost use Rattle.rp_evidence.specs.Welfare.{EqualsOrReaches, IsInRegion, IsLowerWelfare};
ghost use Rattle.rp_evidence.specs.Welfare.{IsUtilityOf, ListsReached};
ghost use Rattle.rp_evidence.specs.WelfareModels.{HoldsInEveryModel};
ghost use Rattle.rp_evidence.specs.declared.demand.WelfarePart.{WelfarePart};

/// In every Afriat model a bundle with at least the utility of an observation lies in its region, and a bundle of
/// the table that equals or reaches the observation has at least its utility (after Varian 1982).
pub fn welfare_bounds_hold()
    ensures region { (input : TableInput) (utility : ℕ → ℤ) (multiplier : ℕ → ℕ) (t : ℕ)
        (bundle : FractionBundle) (value : ℤ)
        → IsAfriatModel input.n input.cost utility multiplier → 0 < bundle.den
        → IsUtilityOf input utility multiplier bundle value
        → (pos bundle.den *ℤ utility t) ≤ℤ value → IsInRegion input t bundle }
    ensures reaching { (input : TableInput) (utility : ℕ → ℤ) (multiplier : ℕ → ℕ) (s t : ℕ)
        → IsAfriatModel input.n input.cost utility multiplier
        → EqualsOrReaches input s t → utility t ≤ℤ utility s }
{}

/// The price side of an equal pair has the least cost over the region.
pub fn equal_pairs_bound_welfare()
    ensures { (input : TableInput) (prices : ℕ → ℕ) (t : ℕ) (reached : List ℕ) (den : ℕ)
        (y x : ℕ → ℕ) → ListsReached input t reached
        → IsEqualPair (least_cost_program input prices reached) den y x
        → IsLowerWelfare input prices t (spending input.goods prices x) den }
{}

/// Where the table meets the axiom, a bundle that equals or reaches an observation lies in its region: no lower bound
/// is above an upper one.
pub fn reaching_bundles_are_in_region()
    ensures { (input : TableInput) (s t : ℕ) → MeetsGarp input.n input.cost
        → EqualsOrReaches input s t
        → IsInRegion input t (record { den = 1; num = input.quantity s }) }
{}

/// What evidence on welfare proves holds in every Afriat model of the table: each bundle with at least the utility of
/// the observation costs at least a shown lower bound, and the observation of the upper bound has at least that
/// utility. Where the evidence is a violation there is no model.
pub fn welfare_evidence_holds_in_every_model()
    ensures { (input : TableInput) (prices : List ℕ) (t : ℕ) (part : WelfarePart)
        → ProvesWelfare input prices t part → HoldsInEveryModel input prices t part }
{}

/// The program of a lower bound is bounded where the table meets the axiom: none of its feasible points is worth more
/// than the bundle of an observation that equals or reaches the one asked for, and it has no ray.
pub fn welfare_programs_are_bounded()
    ensures value { (input : TableInput) (prices : ℕ → ℕ) (s t : ℕ) (reached : List ℕ)
        → MeetsGarp input.n input.cost → EqualsOrReaches input s t
        → ListsReached input t reached
        → NoneWorthMore (least_cost_program input prices reached)
        (spending input.goods prices (input.quantity s)) }
    ensures no_ray { (input : TableInput) (prices ray : ℕ → ℕ) (t : ℕ) (reached : List ℕ)
        → MeetsGarp input.n input.cost → t < input.n → ListsReached input t reached
        → ¬ IsRay (least_cost_program input prices reached) ray }
{}
