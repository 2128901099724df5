//! The rows of long files.
use rp_long::{read_long_records, read_panel};
use rp_panel::write_panel;
use rp_rows::{AsStated, Asked};
use std::alloc::Global;
use std::process::Abort;
use std::test::Fail;

/// The header without columns that are kept.
const HEADER: &str =
    "household,observations,goods,garp,efficiency,efficiency_floor,attained,homothetic,\
    quasilinear,pump,pump_floor,power,fault,record,column\n";

const NOTHING: Asked = Asked {
    pump: false,
    power: None,
};

/// A long file and the lines of its rows.
type Case = (&'static str, &'static str);

const CASES: &[Case] = &[
    // records that stand apart, blanks round an id, records without one, and a fault that takes nobody with it
    (
        "household,p_a,q_a,p_b,q_b\n\
        A,1,1,2,2\n\
        B,1,2,2,1\n\
        ,9,9,9,9\n\
        A ,2,2,1,1\n\
        C,1,x,1,1\n\
        B,2,1,1,2\n\
        \" \",1,1,1,1\n",
        "A,2,2,violated,4/5,0.800000,yes,violated,violated,,,,,,\n\
        B,2,2,holds,1,1.000000,yes,holds,holds,,,,,,\n\
        C,,,,,,,,,,,,BadNumber,5,3\n\
        ,,,,,,,,,,,,NoId,3,\n\
        ,,,,,,,,,,,,NoId,7,\n",
    ),
    // the end of a line in an id forges no record
    (
        "p_a,q_a,household\n3,2,\"a\nb\"\n3,2,\"a\rb\"\n",
        "\"a\nb\",1,1,holds,1,1.000000,yes,holds,holds,,,,,,\n\
        \"a\rb\",1,1,holds,1,1.000000,yes,holds,holds,,,,,,\n",
    ),
];

/// The rows of a long file.
fn rows_of(alloc: Global, file: &str, kept: &[&[u8]]) -> Result<Vec<u8>, Fail> {
    let records = read_long_records(alloc, file.as_bytes())?;
    let panel = read_panel(alloc, &records, b"household", kept)?;
    Ok(write_panel::<AsStated>(alloc, NOTHING, false, kept, &panel)?)
}

/// A long file has these rows.
fn check_rows(rt: &impl Abort, alloc: Global, case: &Case) -> Result<(), Fail> {
    let (file, lines) = *case;
    let found = rows_of(alloc, file, &[])?;
    let wanted = format!(in alloc; "{HEADER}{lines}")?;
    assert!(rt; found.as_slice() == wanted.as_bytes(), "{file}");
    Ok(())
}

/// Each long file has its rows.
fn check_cases(rt: &impl Abort, alloc: Global, cases: &[Case]) -> Result<(), Fail> {
    for case in cases {
        check_rows(rt, alloc, case)?;
    }
    Ok(())
}

#[test]
fn long_files(rt: HostRuntime) -> Result<(), Fail> {
    check_cases(&rt, rt.alloc(), CASES)
}

/// What is kept is that of a household's first record.
#[test]
fn kept_columns(rt: HostRuntime) -> Result<(), Fail> {
    let alloc = rt.alloc();
    let file = "household,p_a,q_a,where\nA,3,2,\"north, east\"\nA,3,2,south\n,3,2,west\n";
    let found = rows_of(alloc, file, &[b"where"])?;
    let wanted =
        "household,observations,goods,garp,efficiency,efficiency_floor,attained,homothetic,\
        quasilinear,pump,pump_floor,power,fault,record,column,where\n\
        A,2,1,holds,1,1.000000,yes,holds,holds,,,,,,,\"north, east\"\n\
        ,,,,,,,,,,,,NoId,3,,\n";
    assert!(&rt; found.as_slice() == wanted.as_bytes());
    Ok(())
}
