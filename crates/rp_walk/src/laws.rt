//! Laws over walks and their totals. Each function is empty: its contract is the law.
ghost use Rattle.std.specs.Prelude.{◌≡◌, ℕ, ◌+◌, ◌<◌, ◌≤◌, List};
ghost use Rattle.rp_walk.specs.ExactTotal.{ExactTotal, IsLess, SameTotal};
ghost use Rattle.rp_walk.specs.LeastTotals.{IsLessThanShorter};
ghost use Rattle.rp_walk.specs.RoundWalk.{IsCutFromRounds};
ghost use Rattle.rp_walk.specs.Settled.{HasLeastTotals, FallsBelowStart};
ghost use Rattle.rp_walk.specs.Walk.{KeepsOrder, StartsAlike, TotalRule, prefix_total};

/// A walk of as many steps as there are observations, p 0, p 1, .. to p n, whose total is less than
/// that of every walk with fewer steps to its end, has a closed part that ends below its start.
pub fn long_walk_holds_closed_part()
    ensures { (w : TotalRule) (p : ℕ → ℕ)
        → KeepsOrder w → ((m : ℕ) → m ≤ w.count → p m < w.count)
        → IsLessThanShorter w w.count (p w.count) (prefix_total w p w.count)
        → (a d : ℕ) × (0 < d) × (a + d ≤ w.count) × (p a ≡ p (a + d))
        × IsLess (prefix_total w p (a + d)) (prefix_total w p a) }
{}

/// Where a closed walk that ends below one start does so from every start, least totals at all
/// observations leave no walk that does.
pub fn least_totals_leave_no_fall()
    ensures { (w : TotalRule) → KeepsOrder w → StartsAlike w → HasLeastTotals w
        → (start : ExactTotal) (walk : List ℕ) → ¬ (FallsBelowStart w start walk) }
{}

/// The walk that the rounds give is one, and so are its first closed part and the total there.
pub fn one_cycle_is_cut_from_rounds()
    ensures { (w : TotalRule) (start other : ExactTotal) (x y : List ℕ)
        → IsCutFromRounds w start x → IsCutFromRounds w other y
        → (x ≡ y) × SameTotal start other }
{}
