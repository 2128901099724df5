//! What is asked of each household beside the verdicts.
ghost use Rattle.std.specs.Prelude.{◌≡◌, [], IsTrue, ◌↔◌};
ghost use Rattle.rp_rows.specs.Asked.{MayBeAsked};

use rp_table::Table;

/// What is asked of each household beside the verdicts: the greatest money pump ratio, and how many random behaviours
/// fail the axiom.
#[derive(Clone, Copy, Debug)]
pub struct Asked {
    pub pump: bool,
    pub power: Option<Draws>,
}

/// So many random behaviours, by the words of a seed.
#[derive(Clone, Copy, Debug)]
pub struct Draws {
    pub draws: u32,
    pub seed: u64,
}

impl Asked {
    /// Whether all of it can be asked of a table: neither the pump nor the power of one with levels of its own.
    pub(crate) fn may_be_asked_of(self, table: &Table) -> bool
        ensures { IsTrue result ↔ MayBeAsked self table.now }
    {
        let without_more = !self.pump && self.power.is_none();
        without_more || table.levels().is_empty()
    }
}
