//! The pumps of worked tables.
use rp_check_walk_levels::check_pump;
use rp_clauses::input::Input;
use rp_fit::PumpPart;
use rp_pump::{pump, report_pump};
use rp_table::{Costs, Table};
use rp_text::read_table;
use std::alloc::Global;
use std::process::Abort;
use std::test::Fail;
use tests_inputs::tables::{ALONE, CONTRADICTION, MORE_AND_LESS, NINE_TENTHS, THREE};

/// Tables and their reports.
pub(crate) const WORKED: &[(&str, &str)] = &[
    (
        CONTRADICTION,
        "observations 2 goods 2 places 0 0\npump 1/5\ncycle 1 2 1\nvalues 0 0\n",
    ),
    (
        MORE_AND_LESS,
        "observations 2 goods 2 places 0 0\npump 0\ncycle 1 1\nvalues 0 -4\n",
    ),
    (
        NINE_TENTHS,
        "observations 2 goods 2 places 0 0\npump 1/6\ncycle 1 2 1\nvalues 0 -20\n",
    ),
    (
        THREE,
        "observations 3 goods 3 places 0 0\npump 1/2\ncycle 1 2 3 1\nvalues 0 0 0\n",
    ),
    (
        ALONE,
        "observations 1 goods 1 places 0 0\npump 0\ncycle 1 1\nvalues 0\n",
    ),
];

/// The greatest ratio of a table, with evidence that passes its check.
fn found_pump(rt: &impl Abort, alloc: Global, table: &Table) -> Result<PumpPart, Fail> {
    assert!(rt; !table.levelled());
    let costs = Costs::of(alloc, table)?;
    let part = pump(alloc, &costs)?;
    assert!(rt; check_pump(&Input::new(table, &costs), &part) == Ok(()));
    Ok(part)
}

/// A table has this report.
fn check_report(rt: &impl Abort, alloc: Global, file: &str, report: &str) -> Result<(), Fail> {
    let table = read_table(alloc, file.as_bytes())?;
    let part = found_pump(rt, alloc, &table)?;
    assert!(rt; part.den > 0);
    let found = report_pump(alloc, &table, &part)?;
    assert!(rt; found.as_slice() == report.as_bytes(), "{file}");
    Ok(())
}

/// Each table has its report.
fn check_reports(rt: &impl Abort, alloc: Global, cases: &[(&str, &str)]) -> Result<(), Fail> {
    for (file, report) in cases {
        check_report(rt, alloc, file, report)?;
    }
    Ok(())
}

#[test]
fn worked_tables(rt: HostRuntime) -> Result<(), Fail> {
    check_reports(&rt, rt.alloc(), WORKED)
}

/// A table, the numerator and denominator of its greatest ratio, and the values.
type Round = (&'static str, u64, u64, &'static [i128]);

/// A walk of three steps that has more than every walk of two, two cycles through one observation of which the second
/// has more, and several cycles of one ratio.
const ROUNDS: &[Round] = &[
    (
        "p_a,q_a,p_b,q_b,p_c,q_c\n2,6,2,3,4,0\n7,4,9,4,4,9\n5,3,8,6,1,0\n",
        33,
        181,
        &[-2311, 0, -1717],
    ),
    (
        "p_a,q_a,p_b,q_b\n3,9,4,2\n2,6,7,4\n1,3,8,5\n",
        4,
        13,
        &[-62, 0, 0],
    ),
    (
        "p_a,q_a,p_b,q_b\n1,1,2,2\n2,2,1,1\n1,1,2,2\n2,2,1,1\n",
        1,
        5,
        &[0, 0, 0, 0],
    ),
];

/// The evidence on a table has these numbers.
fn check_round(rt: &impl Abort, alloc: Global, round: Round) -> Result<(), Fail> {
    let (file, num, den, values) = round;
    let table = read_table(alloc, file.as_bytes())?;
    let part = found_pump(rt, alloc, &table)?;
    assert!(rt; part.num == num && part.den == den, "{file}");
    assert!(rt; part.values.as_slice() == values, "{file}");
    Ok(())
}

/// Each table has these numbers.
fn check_rounds(rt: &impl Abort, alloc: Global, rounds: &[Round]) -> Result<(), Fail> {
    for round in rounds {
        check_round(rt, alloc, *round)?;
    }
    Ok(())
}

#[test]
fn rounds_of_worked_tables(rt: HostRuntime) -> Result<(), Fail> {
    check_rounds(&rt, rt.alloc(), ROUNDS)
}
