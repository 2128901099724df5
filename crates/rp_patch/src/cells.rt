//! Cells with their units, which persons of each kind use one of in every group.
ghost use Rattle.std.specs.Prelude.{◌≡◌, ◌<◌, ◌≤◌};
ghost use Rattle.rp_patch.specs.Kinds.{Kinds};
ghost use Rattle.rp_limits.specs.declared.patch.TheConstants.{UNITS};

use crate::patch_list::Patches;
use rp_limits::table::BUDGETS;

/// The cells that kinds of persons use, and their units: what a search and a checker of mixtures ask alike. No call
/// takes memory.
pub trait CellUnits {
    ghost kinds: { Self → Kinds };

    /// How many cells there are.
    fn cells(&self) -> u32
        ensures { result ≡ (kinds self.now).cells };

    /// The units of a cell.
    fn units(&self, cell: u32) -> u64
        requires { cell < (kinds self.now).cells }
        ensures exact { result ≡ (kinds self.now).units cell }
        ensures few { result ≤ UNITS };

    /// The units of each group.
    fn total(&self) -> u64
        ensures { result ≡ (kinds self.now).total };
}

impl CellUnits for Patches {
    ghost use Rattle.rp_patch.specs.Mixtures.{types_on};

    ghost kinds = { types_on };

    fn cells(&self) -> u32 {
        self.count()
    }

    fn units(&self, cell: u32) -> u64 {
        prove!(self.budgets() <= BUDGETS);
        self.units(cell)
    }

    fn total(&self) -> u64 {
        self.total()
    }
}
