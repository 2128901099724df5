//! A law of texts of bounds. The function is empty: its contract is the law.
ghost use Rattle.std.specs.Prelude.{◌≡◌, ℕ, List};
ghost use Rattle.rp_bound_rows.specs.AsStated.{demand_as_stated, welfare_as_stated};
ghost use Rattle.rp_bound_rows.specs.declared.asked.BoundsAsked.{BoundsAsked};
ghost use Rattle.rp_bounds_panel.specs.BoundsText.{IsBoundsText};
ghost use Rattle.rp_long.specs.Panels.{Panel};

/// A panel and the bytes of a file of new prices decide the text of the stated bounds: each amount, which bounds are
/// withheld, where the axiom is violated, and each fault.
pub fn panels_decide_the_bounds()
    ensures stated { (asked : BoundsAsked) (new : List ℕ) (kept : List (List ℕ)) (panel : Panel)
        (text other : List ℕ)
        → IsBoundsText demand_as_stated welfare_as_stated asked new kept panel text
        → IsBoundsText demand_as_stated welfare_as_stated asked new kept panel other
        → text ≡ other }
{}
