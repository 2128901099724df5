//! Reports on technologies.
ghost use Rattle.rp_cost.specs.Axioms.{MeetsCost};

use crate::cost::limits::repeated;
use rp_cost::{
    Asked, Axiom, CostBounds, Tech, check_cost, cost_axiom, cost_bounds, read_asked, read_tech,
    report_cost,
};
use rp_num::Seq;
use std::alloc::Global;
use std::process::Abort;
use std::test::Fail;

/// The bounds of an asked record, which pass their check.
fn bounds_at(
    rt: &impl Abort,
    alloc: Global,
    tech: &Tech,
    asked: &Asked,
    i: u32,
) -> Result<CostBounds, Fail>
    requires { MeetsCost tech.now }
{
    assert!(rt; i < asked.count());
    let prices = asked.row(i);
    assert!(rt; prices.len() == tech.inputs() as usize);
    let bounds = cost_bounds(alloc, tech, prices, asked.y(i))?;
    assert!(rt; check_cost(tech, prices, asked.y(i), &bounds));
    Ok(bounds)
}

/// The bounds of each record.
fn all_bounds(
    rt: &impl Abort,
    alloc: Global,
    tech: &Tech,
    asked: &Asked,
) -> Result<Vec<CostBounds>, Fail>
    requires { MeetsCost tech.now }
{
    let mut all = Vec::new(alloc);
    for i in 0..asked.count() {
        all.push(bounds_at(rt, alloc, tech, asked, i)?)?;
    }
    Ok(all)
}

/// The whole report, with bounds of each record where the cost axiom holds.
fn report(rt: &impl Abort, alloc: Global, tech: &Tech, asked: &Asked) -> Result<Vec<u8>, Fail> {
    match cost_axiom(tech) {
        Axiom::Holds => {
            let all = all_bounds(rt, alloc, tech, asked)?;
            assert!(rt; all.len() == asked.count() as usize);
            Ok(report_cost(alloc, tech, asked, &Seq::from_vec(all))?)
        }
        Axiom::Pair { .. } => {
            let none = Vec::new(alloc);
            Ok(report_cost(alloc, tech, asked, &Seq::from_vec(none))?)
        }
    }
}

/// What is asked of a technology gives this report.
fn check_asked(
    rt: &impl Abort,
    alloc: Global,
    tech: &Tech,
    file: &str,
    want: &str,
) -> Result<(), Fail> {
    let asked = read_asked(alloc, file.as_bytes(), tech)?;
    let text = report(rt, alloc, tech, &asked)?;
    let text = String::from_utf8_lossy(alloc, text.as_slice())?;
    assert_eq!(rt; text.as_str(), want);
    Ok(())
}

/// A technology file and an asked file give this report.
fn check_report(
    rt: &impl Abort,
    alloc: Global,
    tech: &str,
    asked: &str,
    want: &str,
) -> Result<(), Fail> {
    let tech = read_tech(alloc, tech.as_bytes())?;
    check_asked(rt, alloc, &tech, asked, want)
}

/// A technology file, an asked file, and the report.
type Case = (&'static str, &'static str, &'static str);

/// Each two files give their report.
fn check_reports(rt: &impl Abort, alloc: Global, cases: &[Case]) -> Result<(), Fail> {
    for (tech, asked, want) in cases {
        check_report(rt, alloc, tech, asked, want)?;
    }
    Ok(())
}

const REPORTS: &[Case] = &[
    // costs are least and profits are not
    (
        "y,p,w_a,x_a,w_b,x_b\n1,5,1,2,2,1\n2,4,2,2,1,2\n",
        "w_a,w_b,y\n1,1,1\n1,1,3\n1,1,0\n",
        "technology records 2 inputs 2 places 0 0\n\
        cost holds\n\
        profit violated\n\
        pair 1 2\n\
        bounds prices 1 1 output 1 lower 2 upper 3 at 1\n\
        lower x 0 4 y 1:1 over 2\n\
        bounds prices 1 1 output 3 lower 10/3 upper none\n\
        lower x 8 2 y 1:1 2:1 over 3\n\
        bounds prices 1 1 output 0 lower 0 upper 3 at 1\n\
        lower x 0 0 y none over 1\n",
    ),
    // costs are not least
    (
        "y,w_a,x_a,w_b,x_b\n1,1,3,1,3\n1,1,1,1,1\n",
        "w_a,w_b,y\n1,1,1\n",
        "technology records 2 inputs 2 places 0 0\n\
        cost violated\n\
        pair 1 2\n\
        bounds prices 1 1 output 1 none\n",
    ),
    // both axioms are broken
    (
        "y,w_a,x_a,w_b,x_b,p\n1,1,3,1,3,1\n1,1,1,1,1,1\n",
        "w_a,w_b,y\n1,1,1\n",
        "technology records 2 inputs 2 places 0 0\n\
        cost violated\n\
        pair 1 2\n\
        profit violated\n\
        pair 1 2\n\
        bounds prices 1 1 output 1 none\n",
    ),
    // no output and two observations of one cost
    (
        "y,w_a,x_a,w_b,x_b,p\n0,1,2,1,1,7\n0,1,1,1,2,7\n",
        "w_a,w_b,y\n1,1,0\n",
        "technology records 2 inputs 2 places 0 0\n\
        cost holds\n\
        profit holds\n\
        bounds prices 1 1 output 0 lower 3 upper 3 at 1\n\
        lower x 0 3 y 1:1 over 1\n",
    ),
    // equal outputs from ever less
    (
        "y,w_a,x_a\n1,1,3\n1,1,2\n1,1,1\n",
        "w_a,y\n2,2\n",
        "technology records 3 inputs 1 places 0 0\n\
        cost violated\n\
        pair 1 2\n\
        bounds prices 2 output 2 none\n",
    ),
    // falling outputs
    (
        "y,w_a,x_a,p\n3,1,3,2\n2,1,2,1\n1,1,1,1\n",
        "w_a,y\n2,2\n",
        "technology records 3 inputs 1 places 0 0\n\
        cost holds\n\
        profit holds\n\
        bounds prices 2 output 2 lower 4 upper 4 at 2\n\
        lower x 2 y 1:2 over 1\n",
    ),
    // rising outputs and profits below 0
    (
        "y,p,w_a,x_a\n1,1,5,1\n2,1,4,2\n",
        "w_a,y\n1,2\n",
        "technology records 2 inputs 1 places 0 0\n\
        cost holds\n\
        profit violated\n\
        pair 2 1\n\
        bounds prices 1 output 2 lower 2 upper 2 at 2\n\
        lower x 8 y 2:1 over 4\n",
    ),
    // places of prices and of quantities
    (
        "w_a,x_a,y,p\n1.25,0.5,4,1\n",
        "w_a,y\n3,4.1\n",
        "technology records 1 inputs 1 places 2 1\n\
        cost holds\n\
        profit holds\n\
        bounds prices 3 output 41 lower 15 upper none\n\
        lower x 625 y 1:3 over 125\n",
    ),
    // a lower bound past the width
    // The run by hand: a row for each input, with the right side 1, and a column for each observation, with its input
    // prices and what its inputs cost as objective; the numbers of tableau 0 are at most 20,000,002. The first column
    // enters, and the first row leaves (1/9,999,999 is less than 1/1). Tableau 1, over 9,999,999, has the rows
    // (1; 1, 0, 0; 9,999,999, 1, 1),
    // (9,999,998; -1, 9,999,999, 0; 0, 99,999,900,000,008, 9,999,998),
    // (9,999,998; -1, 0, 9,999,999; 0, 9,999,998, 99,999,720,000,026) and the objectives
    // (20,000,002; 20,000,002, 0, 0; 0, -99,999,900,000,005, -99,999,720,000,023). The second column enters, and the
    // second row leaves. Tableau 2, over 99,999,900,000,008, has at the third row and column
    // (99,999,720,000,026 * 99,999,900,000,008 - 9,999,998^2) / 9,999,999 = 999,996,300,002,759,999,796, which passes
    // 2^63 - 1 = 9,223,372,036,854,775,807.
    (
        "y,w_a,x_a,w_b,x_b,w_c,x_c\n\
        2,9999999,2,1,2,1,2\n\
        1,1,1,9999991,1,1,1\n\
        1,1,1,1,1,9999973,1\n",
        "w_a,w_b,w_c,y\n1,1,1,2\n",
        "technology records 3 inputs 3 places 0 0\n\
        cost holds\n\
        bounds prices 1 1 1 output 2 lower withheld 2 upper 6 at 1\n",
    ),
];

#[test]
fn reports_on_technologies(rt: HostRuntime) -> Result<(), Fail> {
    check_reports(&rt, rt.alloc(), REPORTS)
}

#[test]
fn sixteen_asked_outputs(rt: HostRuntime) -> Result<(), Fail> {
    let asked = repeated(rt.alloc(), "w_a,y\n", "7,0\n7,1\n", 8)?;
    let want = repeated(
        rt.alloc(),
        "technology records 1 inputs 1 places 0 0\ncost holds\n",
        "bounds prices 7 output 0 lower 0 upper 14 at 1\n\
         lower x 0 y none over 1\n\
         bounds prices 7 output 1 lower 14 upper 14 at 1\n\
         lower x 6 y 1:7 over 3\n",
        8,
    )?;
    let tech = "y,w_a,x_a\n1,3,2\n";
    check_report(&rt, rt.alloc(), tech, asked.as_str(), want.as_str())
}
