//! The faults of a file of choices from menus.
ghost use Rattle.std.specs.Prelude.{◌≡◌};
ghost use Rattle.rp_menu.specs.Denotation.{told};
ghost use Rattle.rp_menu.specs.declared.fault.MenuFault.TheVariants as fault;

use rp_num::NoMemory;
use rp_sheet::TableFault;
use std::alloc::AllocFailed;
use thiserror::Error;

/// Why a file of choices from menus is refused. Rows and columns are numbered from 1; row 1 is the first below the
/// header.
#[derive(Clone, Copy, Debug, PartialEq, Eq, Error)]
pub enum MenuFault {
    /// There is no line at all.
    #[error("Empty")]
    Empty,
    /// A record with more or fewer fields than there are column names.
    #[error("Ragged")]
    Ragged { row: u32 },
    /// A column name that this kind of file has not.
    #[error("BadHeader")]
    BadHeader { column: u32 },
    /// A column name that an earlier column has.
    #[error("TwiceNamed")]
    TwiceNamed { column: u32 },
    /// A column is missing; its number is 0.
    #[error("Unpaired")]
    Unpaired { column: u32 },
    /// Column names and nothing else.
    #[error("NoRecords")]
    NoRecords,
    /// More records than `CHOICES`.
    #[error("TooManyRecords")]
    TooManyRecords,
    /// A count that is no whole number.
    #[error("BadNumber")]
    BadNumber { row: u32, column: u32 },
    /// A number of more places than a number may have. A count has none.
    #[error("TooManyDecimals")]
    TooManyDecimals { row: u32, column: u32 },
    /// A count above the largest.
    #[error("TooLarge")]
    TooLarge { row: u32, column: u32 },
    /// A menu that is not one letter or more from a to f, each after the one before it.
    #[error("BadMenu")]
    BadMenu { row: u32 },
    /// What was chosen is not one letter of the menu.
    #[error("BadChoice")]
    BadChoice { row: u32 },
    /// Nothing was chosen: every count is 0.
    #[error("NoMenus")]
    NoMenus,
    /// With this record there are more cells than units are shared out among.
    #[error("TooManyCells")]
    TooManyCells { row: u32 },
    /// Memory ran out.
    #[error("NoMemory")]
    NoMemory,
}

impl From<NoMemory> for MenuFault {
    ghost from_gives = { λ _ f. f ≡ fault.NoMemory };

    fn from(_error: NoMemory) -> MenuFault {
        MenuFault::NoMemory
    }
}

impl<T: Drop> From<AllocFailed<T>> for MenuFault {
    ghost from_gives = { λ _ f. f ≡ fault.NoMemory };

    fn from(_error: AllocFailed<T>) -> MenuFault {
        MenuFault::NoMemory
    }
}

impl From<TableFault> for MenuFault {
    ghost from_gives = { λ e f. f ≡ told e };

    fn from(error: TableFault) -> MenuFault {
        match error {
            TableFault::Empty => MenuFault::Empty,
            TableFault::Ragged { row } => MenuFault::Ragged { row },
            TableFault::BadHeader { column } => MenuFault::BadHeader { column },
            TableFault::TwiceNamed { column } => MenuFault::TwiceNamed { column },
            TableFault::Unpaired { column } => MenuFault::Unpaired { column },
            TableFault::NoRecords => MenuFault::NoRecords,
            TableFault::TooManyRecords => MenuFault::TooManyRecords,
            TableFault::BadNumber { row, column } => MenuFault::BadNumber { row, column },
            TableFault::TooManyDecimals { row, column } => {
                MenuFault::TooManyDecimals { row, column }
            }
            TableFault::TooLarge { row, column } => MenuFault::TooLarge { row, column },
            _ => MenuFault::NoMemory,
        }
    }
}
