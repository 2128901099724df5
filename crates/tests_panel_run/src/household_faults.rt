//! Each fault of one household is a row of its own, and leaves the rows of the other households as they are.
use crate::bounds::DEMAND_HEADER;
use crate::running::{CALM, assert_ended, run_beside, writes};
use rp_panel_run::Status;
use std::alloc::{AllocError, Global};
use std::test::Fail;

const PLAIN: &[&str] = &["l.csv"];

const PUMP: &[&str] = &["l.csv", "--pump"];

const DEMAND: &[&str] = &["l.csv", "--demand", "n.csv"];

/// A household with a table between two that have none, and the rows of all.
const FAULTS: &str = "household,p_a,q_a\n\
    BadPrice,x,1\nBadQuantity,1,-1\nPlaces,1.1234567,1\nFree,0,1\nFine,3,2\nNothing,1,0\n\
    Dear,10000000,1\nMuch,1,10000000\nLast,3,2\n";

const ROWS: &str = "BadPrice,,,,,,,,,,,,BadNumber,1,2\n\
    BadQuantity,,,,,,,,,,,,BadNumber,2,3\n\
    Places,,,,,,,,,,,,TooManyDecimals,3,2\n\
    Free,,,,,,,,,,,,ZeroPrice,4,2\n\
    Fine,1,1,holds,1,1.000000,yes,holds,holds,,,,,,\n\
    Nothing,,,,,,,,,,,,ZeroBundle,6,\n\
    Dear,,,,,,,,,,,,TooLarge,7,2\n\
    Much,,,,,,,,,,,,TooLarge,8,3\n\
    Last,1,1,holds,1,1.000000,yes,holds,holds,,,,,,\n";

#[test]
fn each_fault_of_a_household_is_a_row(rt: HostRuntime) -> Result<(), Fail> {
    writes(rt.alloc(), PLAIN, FAULTS, "", ROWS, "")
}

/// Levels of the observations' own: one that is no level, and one beside which no pump is told.
const LEVELS: &str = "household,p_a,q_a,e\nLevel,3,2,1001\nOwn,3,2,1000\n";

#[test]
fn faults_of_levels_are_rows(rt: HostRuntime) -> Result<(), Fail> {
    let alloc = rt.alloc();
    let plain = "Level,,,,,,,,,,,,BadLevel,1,4\nOwn,1,1,holds,1,1.000000,yes,holds,holds,,,,,,\n";
    writes(alloc, PLAIN, LEVELS, "", plain, "")?;
    let pump = "Level,,,,,,,,,,,,BadLevel,1,4\nOwn,,,,,,,,,,,,OwnLevels,,\n";
    writes(alloc, PUMP, LEVELS, "", pump, "")
}

/// A household of so many records, before one of a single record.
fn with_many(alloc: Global, records: u32) -> Result<String, AllocError> {
    let mut file = String::from_str(alloc, "household,p_a,q_a\n")?;
    for _ in 0..records {
        file.push_str("Many,1,1\n")?;
    }
    file.push_str("Fine,3,2\n")?;
    Ok(file)
}

/// A table has at most 512 records.
#[test]
fn a_household_with_too_many_records_is_a_row(rt: HostRuntime) -> Result<(), Fail> {
    let file = with_many(rt.alloc(), 513)?;
    let rows = "Many,,,,,,,,,,,,TooManyRecords,,\n\
        Fine,1,1,holds,1,1.000000,yes,holds,holds,,,,,,\n";
    writes(rt.alloc(), PLAIN, file.as_str(), "", rows, "")
}

/// The one good costs 3, and all of 5 is spent on it.
#[test]
fn a_household_with_too_many_records_is_a_row_of_bounds(rt: HostRuntime) -> Result<(), Fail> {
    let alloc = rt.alloc();
    let file = with_many(alloc, 513)?;
    let lines = "Many,,,,,,,,,TooManyRecords,,\nFine,1,1,1,a,5/3,1.666666,5/3,1.666667,,,\n";
    let out = format!(in alloc; "{DEMAND_HEADER}{lines}")?;
    let got = run_beside(alloc, DEMAND, file.as_str(), Some("m,p_a\n5,3\n"), CALM)?;
    assert_ended(alloc, DEMAND, &got, Status::Done, out.as_str(), "")
}
