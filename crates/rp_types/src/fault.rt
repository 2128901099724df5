//! The faults of patches that have no list of rational types.
ghost use Rattle.std.specs.Prelude.{◌≡◌};
ghost use Rattle.rp_types.specs.declared.fault.TypesFault.TheVariants as fault;

use rp_num::NoMemory;
use std::alloc::{AllocError, AllocFailed};
use thiserror::Error;

/// Why patches have no list of rational types within the limits.
#[derive(Clone, Copy, Debug, PartialEq, Eq, Error)]
pub enum TypesFault {
    /// There are more ways to take a patch of each budget than `COMBINATIONS`.
    #[error("TooManyCombinations")]
    TooManyCombinations,
    /// There are more rational types than `TYPES`.
    #[error("TooManyTypes")]
    TooManyTypes,
    /// Memory ran out.
    #[error("NoMemory")]
    NoMemory,
}

impl From<NoMemory> for TypesFault {
    ghost from_gives = { λ _ f. f ≡ fault.NoMemory };

    fn from(_error: NoMemory) -> TypesFault {
        TypesFault::NoMemory
    }
}

impl From<AllocError> for TypesFault {
    ghost from_gives = { λ _ f. f ≡ fault.NoMemory };

    fn from(_error: AllocError) -> TypesFault {
        TypesFault::NoMemory
    }
}

impl<T: Drop> From<AllocFailed<T>> for TypesFault {
    ghost from_gives = { λ _ f. f ≡ fault.NoMemory };

    fn from(_error: AllocFailed<T>) -> TypesFault {
        TypesFault::NoMemory
    }
}
