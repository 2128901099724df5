//! The faults of a file of numbers.
ghost use Rattle.std.specs.Prelude.{◌≡◌};
ghost use Rattle.rp_sheet.specs.declared.fault.TableFault.TheVariants as fault;

use rp_num::NoMemory;
use std::alloc::{AllocError, AllocFailed};
use thiserror::Error;

/// Why a file is refused. Rows, columns and budgets are numbered from 1; row 1 is the first below the header.
#[derive(Clone, Copy, Debug, PartialEq, Eq, Error)]
pub enum TableFault {
    /// There is no line at all.
    #[error("Empty")]
    Empty,
    /// A record with more or fewer fields than there are column names.
    #[error("Ragged")]
    Ragged { row: u32 },
    /// A column name that this kind of file has not.
    #[error("BadHeader")]
    BadHeader { column: u32 },
    /// A column name that an earlier column has.
    #[error("TwiceNamed")]
    TwiceNamed { column: u32 },
    /// A good whose price or quantity has no column of its own; column 0 where there is no good, or where another
    /// column is missing.
    #[error("Unpaired")]
    Unpaired { column: u32 },
    /// More goods than `GOODS`.
    #[error("TooManyGoods")]
    TooManyGoods,
    /// Column names and nothing else.
    #[error("NoRecords")]
    NoRecords,
    /// More records than this kind of file may have.
    #[error("TooManyRecords")]
    TooManyRecords,
    /// A field that is no number, or that is not whole where it has to be.
    #[error("BadNumber")]
    BadNumber { row: u32, column: u32 },
    /// A number of more places than `DECIMAL_PLACES`.
    #[error("TooManyDecimals")]
    TooManyDecimals { row: u32, column: u32 },
    /// A price of 0.
    #[error("ZeroPrice")]
    ZeroPrice { row: u32, column: u32 },
    /// A record whose quantities are all 0, or whose expenditure or income is.
    #[error("ZeroBundle")]
    ZeroBundle { row: u32 },
    /// A scaled number above the largest of its kind.
    #[error("TooLarge")]
    TooLarge { row: u32, column: u32 },
    /// A good that the table or the budgets have not; column 0 where one of theirs is missing.
    #[error("OtherGoods")]
    OtherGoods { column: u32 },
    /// A number of more places than the fixed scale.
    #[error("TooFine")]
    TooFine { row: u32, column: u32 },
    /// A choice on a budget that there is not.
    #[error("UnknownBudget")]
    UnknownBudget { row: u32 },
    /// A budget on which nothing was chosen.
    #[error("NoChoices")]
    NoChoices { budget: u32 },
    /// An own level that is 0 or above `LEVEL_SCALE`.
    #[error("BadLevel")]
    BadLevel { row: u32, column: u32 },
    /// Memory ran out.
    #[error("NoMemory")]
    NoMemory,
}

impl From<NoMemory> for TableFault {
    ghost from_gives = { λ _ f. f ≡ fault.NoMemory };

    fn from(_error: NoMemory) -> TableFault {
        TableFault::NoMemory
    }
}

impl From<AllocError> for TableFault {
    ghost from_gives = { λ _ f. f ≡ fault.NoMemory };

    fn from(_error: AllocError) -> TableFault {
        TableFault::NoMemory
    }
}

impl<T: Drop> From<AllocFailed<T>> for TableFault {
    ghost from_gives = { λ _ f. f ≡ fault.NoMemory };

    fn from(_error: AllocFailed<T>) -> TableFault {
        TableFault::NoMemory
    }
}
