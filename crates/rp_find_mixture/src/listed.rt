//! Kinds of persons in a list.
ghost use Rattle.std.specs.Prelude.{◌≡◌, ◌<◌, ℕ, List, [], length, slice_index_or};
ghost use Rattle.rp_farkas.specs.Limits.{IsWithinLimits};
ghost use Rattle.rp_patch.specs.Kinds.{mixture_program, uses};

use rp_patch::CellUnits;

/// Kinds of persons in a list, with the cells that they use.
pub trait Listed: CellUnits {
    ghost listed: { Self → List (List ℕ) };

    /// How many kinds are listed.
    fn count(&self) -> u32
        ensures { result ≡ length (listed self.now) };

    /// A listed kind.
    fn kind(&self, place: u32) -> &[u32]
        requires { place < length (listed self.now) }
        ensures { result.now ≡ slice_index_or (listed self.now) place [] };

    /// Whether a listed kind uses a cell.
    fn uses(&self, place: u32, cell: u32) -> bool
        requires kind { place < length (listed self.now) }
        requires cell { cell < (Self.kinds self.now).cells }
        ensures { result
            ≡ uses ((Self.kinds self.now).used (slice_index_or (listed self.now) place [])) cell };

    ghost within_limits: { (l : Self)
        → IsWithinLimits (mixture_program (Self.kinds l) (listed l)) };
}
