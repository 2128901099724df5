//! Failures of commands over menus, technologies and budgets.
use crate::faults::failures::{Case, each_read_fails, each_write_fails};
use rp_commands::Status;
use std::test::Fail;
use tests_inputs::tables::{ALONE, CONTRADICTION};

/// Choices that orders make, on menus of which something was chosen from each.
const MIXED: Case<'static> = Case {
    words: &["rp", "menus", "m.csv"],
    files: &[("m.csv", "menu,choice,n\nab,a,1\nab,b,2\n")],
    status: Status::Done,
    text: "alternatives 2 menus 1 cells 2 orders 2 total 3\nmenus mixture over 1\n\
        part a b weight 1\npart b a weight 2\nsums least 1 at b in b\n",
};

/// Choices that no orders make, on units that are asked for.
const VIOLATED: Case<'static> = Case {
    words: &["rp", "menus", "m.csv", "--per", "2"],
    files: &[("m.csv", "menu,choice,n\nabc,a,1\nabc,b,1\nab,b,2\n")],
    status: Status::Done,
    text: "alternatives 3 menus 2 cells 3 orders 2 total 2\napportioned per 2\n\
        menus violated share 1/2\nweights 0 1 0 over 1\npart b a c weight 1\n",
};

const PUMP: Case<'static> = Case {
    words: &["rp", "pump", "t.csv"],
    files: &[("t.csv", CONTRADICTION)],
    status: Status::Done,
    text: "observations 2 goods 2 places 0 0\npump 1/5\ncycle 1 2 1\nvalues 0 0\n",
};

const COST: Case<'static> = Case {
    words: &["rp", "cost", "t.csv", "n.csv"],
    files: &[
        ("t.csv", "y,p,w_a,w_b,x_a,x_b\n1,5,1,2,2,1\n2,4,2,1,2,2\n"),
        ("n.csv", "w_a,w_b,y\n1,1,1\n"),
    ],
    status: Status::Done,
    text: "technology records 2 inputs 2 places 0 0\ncost holds\nprofit violated\npair 1 2\n\
        bounds prices 1 1 output 1 lower 2 upper 3 at 1\nlower x 0 4 y 1:1 over 2\n",
};

const POWER: Case<'static> = Case {
    words: &["rp", "power", "t.csv", "7", "10"],
    files: &[("t.csv", ALONE)],
    status: Status::Done,
    text: "observations 1 goods 1 places 0 0\npower 7 draws 10 violations 0\n",
};

const MEASURES: &[Case<'static>] = &[MIXED, VIOLATED, PUMP, COST, POWER];

#[test]
fn each_read_of_a_byte_of_each_measure_fails_in_turn(rt: HostRuntime) -> Result<(), Fail> {
    for case in MEASURES {
        each_read_fails(&rt, rt.alloc(), case, 1)?;
    }
    Ok(())
}

#[test]
fn each_write_after_reads_of_a_byte_of_each_measure_fails_in_turn(
    rt: HostRuntime,
) -> Result<(), Fail> {
    for case in MEASURES {
        each_write_fails(&rt, rt.alloc(), case, 1)?;
    }
    Ok(())
}
