//! Why a household or a record has no verdicts.
ghost use Rattle.std.specs.Prelude.{◌≡◌, Option};
ghost use Rattle.rp_rows.specs.Faults.{column_of_fault, fault_word, row_of_fault, table_fault_word};

use rp_sheet::TableFault;

/// Why a household has no verdicts, or a record is no household's. Records and columns are those of the file that all
/// households are in; they are numbered from 1, and record 1 is the first below the header.
#[derive(Clone, Copy, Debug, PartialEq, Eq)]
pub enum Fault {
    /// The household's records are no table.
    OfTable(TableFault),
    /// The household's observations have levels of their own, and the pump or the power is asked.
    OwnLevels,
    /// A record whose id is empty or blank.
    NoId { row: u32 },
    /// A record whose id is too long.
    LongId { row: u32 },
}

impl Fault {
    /// The word of a fault.
    pub fn word(self) -> &'static [u8]
        ensures { result.now ≡ fault_word self }
    {
        match self {
            Fault::OfTable(fault) => table_fault_word(fault),
            Fault::OwnLevels => b"OwnLevels",
            Fault::NoId { .. } => b"NoId",
            Fault::LongId { .. } => b"LongId",
        }
    }

    /// The record of a fault, where it has one.
    pub fn row(self) -> Option<u32>
        ensures { result ≡ row_of_fault self }
    {
        match self {
            Fault::OfTable(TableFault::Ragged { row })
            | Fault::OfTable(TableFault::BadNumber { row, .. })
            | Fault::OfTable(TableFault::TooManyDecimals { row, .. })
            | Fault::OfTable(TableFault::ZeroPrice { row, .. })
            | Fault::OfTable(TableFault::ZeroBundle { row })
            | Fault::OfTable(TableFault::TooLarge { row, .. })
            | Fault::OfTable(TableFault::TooFine { row, .. })
            | Fault::OfTable(TableFault::UnknownBudget { row })
            | Fault::OfTable(TableFault::BadLevel { row, .. }) => Some(row),
            Fault::NoId { row } | Fault::LongId { row } => Some(row),
            _ => None,
        }
    }

    /// The column of a fault, where it has one.
    pub fn column(self) -> Option<u32>
        ensures { result ≡ column_of_fault self }
    {
        match self {
            Fault::OfTable(TableFault::BadHeader { column })
            | Fault::OfTable(TableFault::TwiceNamed { column })
            | Fault::OfTable(TableFault::Unpaired { column })
            | Fault::OfTable(TableFault::BadNumber { column, .. })
            | Fault::OfTable(TableFault::TooManyDecimals { column, .. })
            | Fault::OfTable(TableFault::ZeroPrice { column, .. })
            | Fault::OfTable(TableFault::TooLarge { column, .. })
            | Fault::OfTable(TableFault::OtherGoods { column })
            | Fault::OfTable(TableFault::TooFine { column, .. })
            | Fault::OfTable(TableFault::BadLevel { column, .. }) => Some(column),
            _ => None,
        }
    }
}

/// The word of a fault of a table.
fn table_fault_word(fault: TableFault) -> &'static [u8]
    ensures { result.now ≡ table_fault_word fault }
{
    match fault {
        TableFault::Empty => b"Empty",
        TableFault::Ragged { .. } => b"Ragged",
        TableFault::BadHeader { .. } => b"BadHeader",
        TableFault::TwiceNamed { .. } => b"TwiceNamed",
        TableFault::Unpaired { .. } => b"Unpaired",
        TableFault::TooManyGoods => b"TooManyGoods",
        TableFault::NoRecords => b"NoRecords",
        TableFault::TooManyRecords => b"TooManyRecords",
        TableFault::BadNumber { .. } => b"BadNumber",
        TableFault::TooManyDecimals { .. } => b"TooManyDecimals",
        TableFault::ZeroPrice { .. } => b"ZeroPrice",
        TableFault::ZeroBundle { .. } => b"ZeroBundle",
        TableFault::TooLarge { .. } => b"TooLarge",
        TableFault::OtherGoods { .. } => b"OtherGoods",
        TableFault::TooFine { .. } => b"TooFine",
        TableFault::UnknownBudget { .. } => b"UnknownBudget",
        TableFault::NoChoices { .. } => b"NoChoices",
        TableFault::BadLevel { .. } => b"BadLevel",
        TableFault::NoMemory => b"NoMemory",
    }
}
