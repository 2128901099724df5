//! What a checker asks of kinds of persons, whatever they are.
ghost use Rattle.std.specs.Prelude.{◌≡◌, ◌<◌, ◌≤◌, ◌↔◌, ℕ, IsTrue, List, length};
ghost use Rattle.rp_patch.specs.Kinds.{cells_weight, uses};

use rp_patch::CellUnits;

/// Kinds of persons and the cells that they use, with what a checker asks of them. No call takes memory.
pub trait Choosers: CellUnits {
    /// Whether a list is written as a kind is.
    fn is_formed(&self, list: &[u32]) -> bool
        ensures { IsTrue result ↔ (Self.kinds self.now).IsFormed list.now };

    /// Whether a list that is written so is a kind.
    fn is_kind(&self, list: &[u32]) -> bool
        requires { (Self.kinds self.now).IsFormed list.now }
        ensures { IsTrue result ↔ (Self.kinds self.now).IsKind list.now };

    /// Whether what is written so uses a cell.
    fn uses(&self, list: &[u32], cell: u32) -> bool
        requires { cell < (Self.kinds self.now).cells }
        ensures { result ≡ uses ((Self.kinds self.now).used list.now) cell };

    /// Whether the cells of every kind weigh at least `least` together.
    fn all_weigh(&self, least: u64, weights: &[u64]) -> bool
        requires { length weights.now ≡ (Self.kinds self.now).cells }
        ensures { IsTrue result ↔ ((kind : List ℕ) → (Self.kinds self.now).IsKind kind
            → least ≤ cells_weight weights.now ((Self.kinds self.now).used kind)) };
}
