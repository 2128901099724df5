//! The fault of a part of a long file, told with the record and the column of the long file.
ghost use Rattle.std.specs.Prelude.{◌≡◌};
ghost use Rattle.rp_long.specs.InLongFile.{column_in, in_long_file, record_in};

use rp_forms::number_of;
use rp_sheet::TableFault;

/// The number in the long file of a record of a part that has these records.
fn record_in(rows: &[u32], row: u32) -> u32
    ensures { result ≡ record_in rows.now row }
{
    match rows.get(row.saturating_sub(1) as usize) {
        Some(t) => number_of(*t as usize),
        None => number_of(0),
    }
}

/// The number in the long file of a column of a part that has these columns; 0 stays.
fn column_in(columns: &[usize], column: u32) -> u32
    ensures { result ≡ column_in columns.now column }
{
    if column == 0 {
        return 0;
    }
    match columns.get(column.saturating_sub(1) as usize) {
        Some(c) => number_of(*c),
        None => number_of(0),
    }
}

/// A fault of a part with its place in the long file, of which the part has these records and these columns.
#[tactic(auto, unfolding(crate::specs::InLongFile::in_long_file))]
pub(crate) fn in_long_file(rows: &[u32], columns: &[usize], fault: TableFault) -> TableFault
    ensures { result ≡ in_long_file rows.now columns.now fault }
{
    match fault {
        TableFault::Ragged { row } => TableFault::Ragged {
            row: record_in(rows, row),
        },
        TableFault::BadHeader { column } => TableFault::BadHeader {
            column: column_in(columns, column),
        },
        TableFault::TwiceNamed { column } => TableFault::TwiceNamed {
            column: column_in(columns, column),
        },
        TableFault::Unpaired { column } => TableFault::Unpaired {
            column: column_in(columns, column),
        },
        TableFault::BadNumber { row, column } => TableFault::BadNumber {
            row: record_in(rows, row),
            column: column_in(columns, column),
        },
        TableFault::TooManyDecimals { row, column } => TableFault::TooManyDecimals {
            row: record_in(rows, row),
            column: column_in(columns, column),
        },
        TableFault::ZeroPrice { row, column } => TableFault::ZeroPrice {
            row: record_in(rows, row),
            column: column_in(columns, column),
        },
        TableFault::ZeroBundle { row } => TableFault::ZeroBundle {
            row: record_in(rows, row),
        },
        TableFault::TooLarge { row, column } => TableFault::TooLarge {
            row: record_in(rows, row),
            column: column_in(columns, column),
        },
        TableFault::OtherGoods { column } => TableFault::OtherGoods {
            column: column_in(columns, column),
        },
        TableFault::TooFine { row, column } => TableFault::TooFine {
            row: record_in(rows, row),
            column: column_in(columns, column),
        },
        TableFault::UnknownBudget { row } => TableFault::UnknownBudget {
            row: record_in(rows, row),
        },
        TableFault::BadLevel { row, column } => TableFault::BadLevel {
            row: record_in(rows, row),
            column: column_in(columns, column),
        },
        other => other,
    }
}
