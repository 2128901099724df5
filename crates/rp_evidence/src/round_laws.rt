//! Laws of closures that are made round by round.
ghost use Rattle.std.specs.Prelude.{◌≡◌, ◌<◌, ◌↔◌, ◌||◌, ◌==◌, ℕ, bit_or};
ghost use Rattle.std.specs.Int.{bit_at};
ghost use Rattle.rp_evidence.specs.Walk.{Reaches};
ghost use Rattle.rp_evidence.specs.Through.{ReachesThrough};

use crate::Relation;

/// After a round for every observation, just what walks of one or more steps reach is found.
pub fn rounds_find_what_is_reached<R: Relation>()
    ensures { (n s t : ℕ) → s < n → t < n
        → ReachesThrough n R.step s t ↔ Reaches n R.step s t }
{}

/// A bit of the union of two words is set just where it is set in one of them.
pub fn unions_have_bits_of_both()
    ensures { (x y i : ℕ)
        → (bit_at (bit_or x y) i == 1) ≡ (bit_at x i == 1 || bit_at y i == 1) }
{}
