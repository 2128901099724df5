//! The faults of choices that have no patches or no units.
ghost use Rattle.std.specs.Prelude.{◌≡◌};
ghost use Rattle.rp_patch.specs.declared.fault.ApportionFault.TheVariants as no_units;
ghost use Rattle.rp_patch.specs.declared.fault.PatchFault.TheVariants as fault;

use rp_num::NoMemory;
use std::alloc::{AllocError, AllocFailed};
use thiserror::Error;

/// Why choices have no patches within the limits. Budgets count from 0.
#[derive(Clone, Copy, Debug, PartialEq, Eq, Error)]
pub enum PatchFault {
    /// On the budgets up to this one there are more patches than there may be.
    #[error("TooManyPatches")]
    TooManyPatches { budget: u32 },
    /// No unit was asked for, and the total that the budgets up to this one have in common is above `UNITS`.
    #[error("NeedUnit")]
    NeedUnit { budget: u32 },
    /// Memory ran out.
    #[error("NoMemory")]
    NoMemory,
}

impl From<NoMemory> for PatchFault {
    ghost from_gives = { λ _ f. f ≡ fault.NoMemory };

    fn from(_error: NoMemory) -> PatchFault {
        PatchFault::NoMemory
    }
}

impl From<AllocError> for PatchFault {
    ghost from_gives = { λ _ f. f ≡ fault.NoMemory };

    fn from(_error: AllocError) -> PatchFault {
        PatchFault::NoMemory
    }
}

impl<T: Drop> From<AllocFailed<T>> for PatchFault {
    ghost from_gives = { λ _ f. f ≡ fault.NoMemory };

    fn from(_error: AllocFailed<T>) -> PatchFault {
        PatchFault::NoMemory
    }
}

/// Why counts in groups have no units within the limits. Groups count from 0.
#[derive(Clone, Copy, Debug, PartialEq, Eq, Error)]
pub enum ApportionFault {
    /// No unit was asked for, and the total that the groups up to this one have in common is above `UNITS`.
    #[error("NeedUnit")]
    NeedUnit { group: u32 },
    /// Memory ran out.
    #[error("NoMemory")]
    NoMemory,
}

impl From<NoMemory> for ApportionFault {
    ghost from_gives = { λ _ f. f ≡ no_units.NoMemory };

    fn from(_error: NoMemory) -> ApportionFault {
        ApportionFault::NoMemory
    }
}
