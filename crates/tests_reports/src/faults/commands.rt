//! Failures of commands over tables.
use crate::faults::failures::{Case, WHOLE, each_read_fails, each_write_fails};
use rp_commands::Status;
use std::test::Fail;
use tests_inputs::tables::{APART, CERTIFICATE, CONTRADICTION, MORE_AND_LESS};
use tests_support::{CALM, Plan, is_ended, run_in_pieces};

const PAIRS: Case<'static> = Case {
    words: &["rp", "pairs", "t.csv"],
    files: &[("t.csv", CONTRADICTION)],
    status: Status::Done,
    text: "pair 1 2\n",
};

const ANALYSE: Case<'static> = Case {
    words: &["rp", "analyse", "t.csv"],
    files: &[("t.csv", CONTRADICTION)],
    status: Status::Done,
    text: "observations 2 goods 2 places 0 0\ngarp violated\ncycle 1 2 1\nafriat none\ncycle 1 2 1\n\
        efficiency 4/5 attained yes\nbelow 1 1\nabove 1 2 1\nat ranks 2 2\n\
        homothetic violated\nstart 1\ncycle 1 2 1\nquasilinear violated\ncycle 1 2 1\n",
};

const CERTIFY: Case<'static> = Case {
    words: &["rp", "certify", "t.csv"],
    files: &[("t.csv", CONTRADICTION)],
    status: Status::Done,
    text: CERTIFICATE,
};

const UTILITY: Case<'static> = Case {
    words: &["rp", "utility", "t.csv", "b.csv"],
    files: &[("t.csv", MORE_AND_LESS), ("b.csv", "q_a,q_b\n3,3\n")],
    status: Status::Done,
    text: "observations 2 goods 2 places 0 0\ngarp holds\nranks 2 1\nafriat model\nutility 0 -4\n\
        lambda 1 1\nat 1 value -2\n",
};

const DEMAND: Case<'static> = Case {
    words: &["rp", "demand", "t.csv", "n.csv"],
    files: &[("t.csv", APART), ("n.csv", "p_a,p_b,m\n1,1,3\n")],
    status: Status::Done,
    text: "observations 2 goods 2 places 0 0\ngarp holds\nranks 1 1\n\
        demand prices 1 1 expenditure 3\nbelow 1 2\nstrict none\ninner 2 1 over 1\n\
        good 1 lower 1 upper 2\nlower x 1 2 y 2:1 4:1 over 1\nupper x 2 1 y 1:1 4:1 over 1\n\
        good 2 lower 1 upper 2\nlower x 2 1 y 1:1 4:1 over 1\nupper x 1 2 y 2:1 4:1 over 1\n",
};

const WELFARE: Case<'static> = Case {
    words: &["rp", "welfare", "t.csv", "n.csv"],
    files: &[("t.csv", MORE_AND_LESS), ("n.csv", "p_a,p_b\n1,2\n")],
    status: Status::Done,
    text: "observations 2 goods 2 places 0 0\ngarp holds\nranks 2 1\n\
        welfare prices 1 2 observation 1 lower 8 upper 12 at 1\nlower x 8 0 y 1:1 over 1\n\
        welfare prices 1 2 observation 2 lower 4 upper 6 at 2\nlower x 4 0 y 1:1 over 1\n",
};

const CHECK: Case<'static> = Case {
    words: &["rp", "check", "t.csv", "c.json"],
    files: &[("t.csv", CONTRADICTION), ("c.json", CERTIFICATE)],
    status: Status::Done,
    text: "accepted items 5 withheld 0\n",
};

const REJECTED: Case<'static> = Case {
    words: &["rp", "check", "t.csv", "c.json"],
    files: &[("t.csv", APART), ("c.json", CERTIFICATE)],
    status: Status::Rejected,
    text: "rejected item 1 NotWeak place 1\n",
};

const DEMAND_AS_JSON: Case<'static> = Case {
    words: &["rp", "demand", "t.csv", "n.csv", "--json"],
    files: &[("t.csv", CONTRADICTION), ("n.csv", "p_a,p_b,m\n1,1,3\n")],
    status: Status::Done,
    text: "{\"items\":[{\"cycle\":[1,2,1],\"item\":\"garp\"},\
        {\"cycle\":[1,2,1],\"expenditure\":\"3\",\"item\":\"demand\",\"prices\":[\"1\",\"1\"]}],\
        \"kind\":\"table\",\"version\":1}\n",
};

const WELFARE_AS_JSON: Case<'static> = Case {
    words: &["rp", "welfare", "t.csv", "n.csv", "--json"],
    files: &[("t.csv", MORE_AND_LESS), ("n.csv", "p_a,p_b\n1,2\n")],
    status: Status::Done,
    text: "{\"items\":[{\"item\":\"garp\",\"ranks\":[2,1]},\
        {\"at\":1,\"item\":\"welfare\",\"lower\":{\"den\":\"1\",\"value\":\"8\",\"x\":[\"8\",\"0\"],\"y\":[[1,\"1\"]]},\
        \"observation\":1,\"prices\":[\"1\",\"2\"],\"upper\":\"12\"},\
        {\"at\":2,\"item\":\"welfare\",\"lower\":{\"den\":\"1\",\"value\":\"4\",\"x\":[\"4\",\"0\"],\"y\":[[1,\"1\"]]},\
        \"observation\":2,\"prices\":[\"1\",\"2\"],\"upper\":\"6\"}],\"kind\":\"table\",\"version\":1}\n",
};

const TRIAL: Case<'static> = Case {
    words: &["rp", "trial", "7", "1", "1"],
    files: &[],
    status: Status::Done,
    text: "trial 7 rows 1 goods 1\ngarp holds\nefficiency 1 attained yes\nhomothetic holds\n\
        quasilinear holds\n",
};

const COMMANDS: &[Case<'static>] = &[
    PAIRS,
    ANALYSE,
    CERTIFY,
    CHECK,
    REJECTED,
    DEMAND,
    DEMAND_AS_JSON,
    WELFARE,
    WELFARE_AS_JSON,
    UTILITY,
    TRIAL,
];

/// Commands over each kind of file on a table: the table itself, a certificate, new prices with and without what is
/// spent, and bundles.
const KINDS_OF_FILES: &[Case<'static>] = &[PAIRS, CHECK, DEMAND, WELFARE, UTILITY];

#[test]
fn each_read_of_each_command_fails_in_turn(rt: HostRuntime) -> Result<(), Fail> {
    for case in COMMANDS {
        each_read_fails(&rt, rt.alloc(), case, WHOLE)?;
    }
    Ok(())
}

#[test]
fn each_write_of_each_command_fails_in_turn(rt: HostRuntime) -> Result<(), Fail> {
    for case in COMMANDS {
        each_write_fails(&rt, rt.alloc(), case, WHOLE)?;
    }
    Ok(())
}

#[test]
fn each_read_of_a_byte_fails_in_turn(rt: HostRuntime) -> Result<(), Fail> {
    for case in KINDS_OF_FILES {
        each_read_fails(&rt, rt.alloc(), case, 1)?;
    }
    Ok(())
}

#[test]
fn each_write_after_reads_of_a_byte_fails_in_turn(rt: HostRuntime) -> Result<(), Fail> {
    each_write_fails(&rt, rt.alloc(), &PAIRS, 1)
}

#[test]
fn standard_error_that_fails_changes_no_status(rt: HostRuntime) -> Result<(), Fail> {
    for (words, status) in [
        (&["rp", "pair", "t.csv"], Status::Usage),
        (&["rp", "pairs", "no.csv"], Status::ReadFault),
    ] {
        let first = Plan {
            piece: WHOLE,
            fails: &[1],
        };
        let got = run_in_pieces(rt.alloc(), words, &[], CALM, CALM, first)?;
        assert!(rt; is_ended(&got, status, "", ""), "{words:?}");
    }
    Ok(())
}
