//! Rational types as kinds of persons, each of whom uses a patch of every budget.
ghost use Rattle.std.specs.Prelude.{◌≡◌, ◌≤◌, length};
ghost use Rattle.rp_farkas.specs.Limits.{IsWithinLimits};
ghost use Rattle.rp_patch.specs.Mixtures.{random_program};
ghost use Rattle.rp_types.specs.Listed.{types_of};
ghost use Rattle.rp_limits.specs.declared.patch.TheConstants.{PATCHES};
ghost use Rattle.rp_limits.specs.declared.types.TheConstants.{TYPES};

use rp_find_mixture::Listed;
use rp_limits::table::BUDGETS;
use rp_patch::{CellUnits, Patches};
use rp_types::Rational;

/// Rational types on patches, in a list.
#[derive(Drop)]
pub struct ListedTypes<'a> {
    patches: &'a Patches,
    types: &'a [Rational],
    ghost within: { IsWithinLimits (random_program patches.now (types_of types.now)) },
}

impl<'a> ListedTypes<'a> {
    /// These types on these patches; no memory is taken.
    pub fn make(patches: &'a Patches, types: &'a [Rational]) -> ListedTypes<'a>
        requires few_patches { length patches.now.patches ≤ PATCHES }
        requires few { length types.now ≤ TYPES }
        ensures patches { result.patches.now ≡ patches.now }
        ensures types { result.types.now ≡ types.now }
    {
        prove!(patches.budgets() <= BUDGETS);
        ListedTypes { patches, types }
    }
}

impl CellUnits for ListedTypes<'_> {
    ghost use Rattle.rp_patch.specs.Mixtures.{types_on};

    ghost kinds = { λ t. types_on t.patches.now };

    fn cells(&self) -> u32 {
        self.patches.count()
    }

    fn units(&self, cell: u32) -> u64 {
        prove!(self.patches.budgets() <= BUDGETS);
        self.patches.units(cell)
    }

    fn total(&self) -> u64 {
        self.patches.total()
    }
}

impl Listed for ListedTypes<'_> {
    ghost use Rattle.rp_types.specs.Listed.{types_of};

    ghost listed = { λ t. types_of t.types.now };

    ghost within_limits = { λ t. t.within };

    fn count(&self) -> u32 {
        self.types.len() as u32
    }

    fn kind(&self, place: u32) -> &[u32] {
        self.types[place as usize].patches.as_slice()
    }

    fn uses(&self, place: u32, cell: u32) -> bool {
        self.types[place as usize]
            .patches
            .as_slice()
            .contains(&cell)
    }
}
