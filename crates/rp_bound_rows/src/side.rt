//! What a line tells of a bound.
ghost use Rattle.std.specs.Prelude.{◌≤◌};
ghost use Rattle.rp_bound_rows.specs.SmallParts.{HasSmallParts};
ghost use Rattle.rp_bound_rows.specs.Sides.{IsSideOf};

use crate::amount::Amount;
use rp_evidence::Bound;

/// What a line tells of a bound: its amount; that it is withheld, where the computation passes its width; or that there
/// is none, since the axiom is violated.
#[derive(Clone, Copy, Debug)]
pub enum Side {
    Given(Amount),
    Withheld,
    Violated,
}

/// What a line tells of the two bounds that it has.
#[derive(Clone, Copy, Debug)]
pub struct Sides {
    pub lower: Side,
    pub upper: Side,
}

impl Side {
    /// What is told of a bound on scaled numbers, where their scale has so many places.
    pub(crate) fn of(bound: &Bound, places: u32) -> Side
        requires small { HasSmallParts bound.now }
        requires few { places ≤ 12 }
        ensures { IsSideOf places bound.now result }
    {
        match bound {
            Bound::Shown { value, .. } => {
                Side::Given(Amount::in_units(value.num(), value.den(), places))
            }
            Bound::Wide { .. } => Side::Withheld,
        }
    }
}
