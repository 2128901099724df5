//! Why a long file is refused, or one of its records.
ghost use Rattle.std.specs.Prelude.{◌≡◌};
ghost use Rattle.rp_sheet.specs.declared.fault.TableFault.TheVariants as fault;
ghost use Rattle.rp_long.specs.declared.fault.LongFault.TheVariants as long_fault;

use rp_num::NoMemory;
use rp_sheet::TableFault;
use std::alloc::{AllocError, AllocFailed};

/// Why a long file is refused as a whole.
#[derive(Clone, Copy, Debug, PartialEq, Eq)]
pub enum LongFault {
    /// A fault that tables have too, with the record and the column of the long file.
    Table(TableFault),
    /// No column has the name of the ids.
    NoIdColumn,
    /// No column has the name of that number, from 1, among those whose texts are to be kept.
    NoKeptColumn { number: u32 },
}

/// Why a record is refused for its id, without the blanks round it.
#[derive(Clone, Copy, Debug, PartialEq, Eq)]
pub enum IdFault {
    /// The record has no id.
    NoId,
    /// The id has more than `HOUSEHOLD_BYTES` bytes.
    LongId,
}

/// A record that is refused for its id. Records are numbered from 1, the first below the headers.
#[derive(Clone, Copy, Debug, PartialEq, Eq)]
pub struct Unnamed {
    pub row: u32,
    pub fault: IdFault,
}

impl From<NoMemory> for LongFault {
    ghost from_gives = { λ _ f. f ≡ long_fault.Table fault.NoMemory };

    fn from(_error: NoMemory) -> LongFault {
        LongFault::Table(TableFault::NoMemory)
    }
}

impl From<AllocError> for LongFault {
    ghost from_gives = { λ _ f. f ≡ long_fault.Table fault.NoMemory };

    fn from(_error: AllocError) -> LongFault {
        LongFault::Table(TableFault::NoMemory)
    }
}

impl<T: Drop> From<AllocFailed<T>> for LongFault {
    ghost from_gives = { λ _ f. f ≡ long_fault.Table fault.NoMemory };

    fn from(_error: AllocFailed<T>) -> LongFault {
        LongFault::Table(TableFault::NoMemory)
    }
}
