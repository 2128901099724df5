//! Tests of the faults of files: the name of each.
use rp_text::TableFault;
use std::alloc::{AllocError, Global};
use std::test::Fail;

const FAULTS: &[TableFault] = &[
    TableFault::Empty,
    TableFault::Ragged { row: 1 },
    TableFault::BadHeader { column: 2 },
    TableFault::TwiceNamed { column: 2 },
    TableFault::Unpaired { column: 2 },
    TableFault::TooManyGoods,
    TableFault::NoRecords,
    TableFault::TooManyRecords,
    TableFault::BadNumber { row: 1, column: 2 },
    TableFault::TooManyDecimals { row: 1, column: 2 },
    TableFault::ZeroPrice { row: 1, column: 2 },
    TableFault::ZeroBundle { row: 1 },
    TableFault::TooLarge { row: 1, column: 2 },
    TableFault::OtherGoods { column: 2 },
    TableFault::TooFine { row: 1, column: 2 },
    TableFault::UnknownBudget { row: 1 },
    TableFault::NoChoices { budget: 1 },
    TableFault::BadLevel { row: 1, column: 2 },
    TableFault::NoMemory,
];

const NAMES: &str = "\
Empty
Ragged
BadHeader
TwiceNamed
Unpaired
TooManyGoods
NoRecords
TooManyRecords
BadNumber
TooManyDecimals
ZeroPrice
ZeroBundle
TooLarge
OtherGoods
TooFine
UnknownBudget
NoChoices
BadLevel
NoMemory
";

/// The text of each fault, in a line of its own.
fn told(alloc: Global, faults: &[TableFault]) -> Result<String, AllocError> {
    let mut text = String::new(alloc);
    for fault in faults {
        writeln!(text, "{fault}")?;
    }
    Ok(text)
}

#[test]
fn table_faults_are_told_by_their_names(rt: HostRuntime) -> Result<(), Fail> {
    let got = told(rt.alloc(), FAULTS)?;
    assert_eq!(rt; got.as_str(), NAMES);
    Ok(())
}
