//! The linear program of mixtures.
ghost use Rattle.std.specs.Prelude.{◌≡◌};
ghost use Rattle.rp_patch.specs.Kinds.{mixture_program};

use crate::listed::Listed;
use rp_farkas::Lp;

/// The program of mixtures, over the listed kinds: a row for each cell with its units, and a column for each kind.
#[derive(Drop)]
pub struct MixtureProgram<'a, L> {
    listed: &'a L,
}

impl<'a, L: Listed> MixtureProgram<'a, L> {
    /// The program of these kinds; no memory is taken.
    pub fn make(listed: &'a L) -> MixtureProgram<'a, L>
        ensures { ⟦<MixtureProgram<'a, L> as Lp>⟧.program result
            ≡ mixture_program (L.kinds listed.now) (L.listed listed.now) }
    {
        MixtureProgram { listed }
    }
}

impl<L: Listed> Lp for MixtureProgram<'_, L> {
    ghost use Rattle.rp_patch.specs.Kinds.{mixture_program};

    ghost program = { λ p. mixture_program (L.kinds p.listed.now) (L.listed p.listed.now) };

    ghost within_limits = { λ p. L.within_limits p.listed.now };

    fn rows(&self) -> u32 {
        self.listed.cells()
    }

    fn cols(&self) -> u32 {
        self.listed.count()
    }

    fn a(&self, i: u32, j: u32) -> i64 {
        if self.listed.uses(j, i) { 1 } else { 0 }
    }

    fn b(&self, i: u32) -> i64 {
        self.listed.units(i) as i64
    }

    fn c(&self, _j: u32) -> i64 {
        1
    }
}
