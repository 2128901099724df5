//! The faults of bytes that are no certificate.
ghost use Rattle.std.specs.Prelude.{◌≡◌};
ghost use Rattle.rp_json.specs.declared.fault.JsonFault.TheVariants as fault;

use rp_num::NoMemory;
use std::alloc::{AllocError, AllocFailed};
use thiserror::Error;

/// Why bytes are refused as a certificate.
#[derive(Clone, Copy, Debug, PartialEq, Eq, Error)]
pub enum JsonFault {
    /// The bytes are no JSON.
    #[error("NotJson")]
    NotJson,
    /// The certificate has another version than 1 and 2.
    #[error("BadVersion")]
    BadVersion,
    /// An item, from 1, that is none of its kind; 0 where the whole is no certificate of the kind.
    #[error("BadShape")]
    BadShape { item: u32 },
    /// Memory ran out.
    #[error("NoMemory")]
    NoMemory,
}

impl From<NoMemory> for JsonFault {
    ghost from_gives = { λ _ f. f ≡ fault.NoMemory };

    fn from(_error: NoMemory) -> JsonFault {
        JsonFault::NoMemory
    }
}

impl From<AllocError> for JsonFault {
    ghost from_gives = { λ _ f. f ≡ fault.NoMemory };

    fn from(_error: AllocError) -> JsonFault {
        JsonFault::NoMemory
    }
}

impl<T: Drop> From<AllocFailed<T>> for JsonFault {
    ghost from_gives = { λ _ f. f ≡ fault.NoMemory };

    fn from(_error: AllocFailed<T>) -> JsonFault {
        JsonFault::NoMemory
    }
}
