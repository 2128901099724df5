//! A law of types. Its function is empty: its contract is the law.
ghost use Rattle.std.specs.Prelude.{◌≡◌, ℕ, List};
ghost use Rattle.rp_patch.specs.Patches.{PatchList};
ghost use Rattle.rp_patch.specs.Types.{AreRationalTypes};

/// Patches have at most one list of all rational types.
pub fn rational_types_are_determined()
    ensures { (p : PatchList) (one other : List (List ℕ))
        → AreRationalTypes p one → AreRationalTypes p other → one ≡ other }
{}
