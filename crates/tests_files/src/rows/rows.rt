//! The rows of worked tables, and of those that are refused.
use rp_num::Seq;
use rp_rows::{AsStated, Asked, Draws, Fault, Found, Row, panel_text, verdict_row};
use rp_text::read_table;
use std::alloc::Global;
use std::process::Abort;
use std::test::Fail;
use tests_inputs::tables::{ALONE, AT_799, CONTRADICTION, MORE_AND_LESS, NINE_TENTHS, THREE};

/// The header without columns that are kept.
const HEADER: &str =
    "household,observations,goods,garp,efficiency,efficiency_floor,attained,homothetic,\
    quasilinear,pump,pump_floor,power,fault,record,column\n";

const NOTHING: Asked = Asked {
    pump: false,
    power: None,
};

const PUMP: Asked = Asked {
    pump: true,
    power: None,
};

/// Of `ALONE` no behaviour fails, whatever is drawn.
const POWER: Asked = Asked {
    pump: false,
    power: Some(Draws { draws: 7, seed: 1 }),
};

/// A household, its file, what is asked, and its line.
type Case = (&'static str, &'static str, Asked, &'static str);

const CASES: &[Case] = &[
    (
        "1",
        CONTRADICTION,
        NOTHING,
        "1,2,2,violated,4/5,0.800000,yes,violated,violated,,,,,,\n",
    ),
    (
        "a, \"b\"",
        CONTRADICTION,
        PUMP,
        "\"a, \"\"b\"\"\",2,2,violated,4/5,0.800000,yes,violated,violated,1/5,0.200000,,,,\n",
    ),
    (
        "one\nline",
        MORE_AND_LESS,
        PUMP,
        "\"one\nline\",2,2,holds,1,1.000000,yes,holds,holds,0,0.000000,,,,\n",
    ),
    (
        "a\rb",
        ALONE,
        POWER,
        "\"a\rb\",1,1,holds,1,1.000000,yes,holds,holds,,,0/7,,,\n",
    ),
    (
        "=1",
        NINE_TENTHS,
        PUMP,
        "=1,2,2,violated,9/10,0.900000,no,violated,violated,1/6,0.166666,,,,\n",
    ),
    (
        "",
        THREE,
        NOTHING,
        ",3,3,violated,1/2,0.500000,yes,violated,violated,,,,,,\n",
    ),
    (
        "levels",
        AT_799,
        NOTHING,
        "levels,2,2,holds,4/5,0.800000,yes,violated,violated,,,,,,\n",
    ),
    ("levels", AT_799, PUMP, "levels,,,,,,,,,,,,OwnLevels,,\n"),
    ("levels", AT_799, POWER, "levels,,,,,,,,,,,,OwnLevels,,\n"),
    ("no", "", NOTHING, "no,,,,,,,,,,,,Empty,,\n"),
    (
        "no",
        "p_a,q_a\n1,1\n1\n",
        NOTHING,
        "no,,,,,,,,,,,,Ragged,2,\n",
    ),
    (
        "no",
        "p_a,q_a\n1,x\n",
        PUMP,
        "no,,,,,,,,,,,,BadNumber,1,2\n",
    ),
    (
        "no",
        "p_a,q_a,x\n1,1,1\n",
        NOTHING,
        "no,,,,,,,,,,,,BadHeader,,3\n",
    ),
];

/// The row of a household with that file.
fn row_of(alloc: Global, household: &str, file: &str, asked: Asked) -> Result<Row, Fail> {
    let id = Seq::from_vec(Vec::from_slice(alloc, household.as_bytes())?);
    let none = Seq::from_vec(Vec::new(alloc));
    match read_table(alloc, file.as_bytes()) {
        Ok(table) => Ok(verdict_row::<AsStated>(alloc, asked, id, none, &table)?),
        Err(fault) => Ok(row_with(id, none, Fault::OfTable(fault))),
    }
}

/// The row of a household with that fault.
fn row_with(household: Seq<u8>, kept: Seq<Seq<u8>>, fault: Fault) -> Row {
    Row {
        household,
        kept,
        found: Found::Fault(fault),
    }
}

/// A household has this line.
fn check_line(rt: &impl Abort, alloc: Global, case: &Case) -> Result<(), Fail> {
    let (household, file, asked, line) = *case;
    let mut rows = Vec::new(alloc);
    rows.push(row_of(alloc, household, file, asked)?)?;
    let found = panel_text(alloc, &[], rows.as_slice())?;
    let wanted = format!(in alloc; "{HEADER}{line}")?;
    assert!(rt; found.as_slice() == wanted.as_bytes(), "{household} {line}");
    Ok(())
}

/// Each household has its line.
fn check_lines(rt: &impl Abort, alloc: Global, cases: &[Case]) -> Result<(), Fail> {
    for case in cases {
        check_line(rt, alloc, case)?;
    }
    Ok(())
}

#[test]
fn worked_tables(rt: HostRuntime) -> Result<(), Fail> {
    check_lines(&rt, rt.alloc(), CASES)
}

/// Texts that are kept stand at the end, under the names of their columns.
#[test]
fn kept_texts(rt: HostRuntime) -> Result<(), Fail> {
    let alloc = rt.alloc();
    let mut kept = Vec::new(alloc);
    kept.push(Seq::from_vec(Vec::from_slice(alloc, b"north, east")?))?;
    kept.push(Seq::from_vec(Vec::new(alloc)))?;
    let id = Seq::from_vec(Vec::new(alloc));
    let mut rows = Vec::new(alloc);
    rows.push(row_with(id, Seq::from_vec(kept), Fault::NoId { row: 3 }))?;
    let names: &[&[u8]] = &[b"where", b"when"];
    let found = panel_text(alloc, names, rows.as_slice())?;
    let wanted =
        "household,observations,goods,garp,efficiency,efficiency_floor,attained,homothetic,\
        quasilinear,pump,pump_floor,power,fault,record,column,where,when\n\
        ,,,,,,,,,,,,NoId,3,,\"north, east\",\n";
    assert!(&rt; found.as_slice() == wanted.as_bytes());
    Ok(())
}

/// Without a row there is the header alone.
#[test]
fn no_rows(rt: HostRuntime) -> Result<(), Fail> {
    let found = panel_text(rt.alloc(), &[], &[])?;
    assert!(&rt; found.as_slice() == HEADER.as_bytes());
    Ok(())
}
