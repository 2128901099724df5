//! Reports of `pairs`.
use std::test::Fail;
use tests_inputs::tables::{ALONE, APART, AT_799, AT_800, CONTRADICTION, THREE};
use tests_support::prints;

const PAIRS: &[(&str, &str)] = &[
    (CONTRADICTION, "pair 1 2\n"),
    (APART, "pair none\n"),
    (ALONE, "pair none\n"),
    (THREE, "pair none\n"),
    ("p_a,q_a,p_b,q_b\n1.0,1,2,2\n2,2,1,1\n", "pair 1 2\n"),
    ("p_a,q_a,p_b,q_b\n1,1,2,2\n2,2,1,1", "pair 1 2\n"),
    ("p_a,q_a\n1.5000000,1\n", "pair none\n"),
    ("p_a,q_a\n00012.500,1\n", "pair none\n"),
    (
        " p_a ,\tq_a,obs,p_b,q_b\n1,1,\"the \"\"first\"\"\nround\",2,2\n2,2,,1,1\n",
        "pair 1 2\n",
    ),
    ("p_a,q_a\n9999999,1\n", "pair none\n"),
    ("p_a\u{7f}b,q_a\u{7f}b\n3,2\n", "pair none\n"),
    ("p_\u{7f},q_\u{7f}\n3,2\n", "pair none\n"),
    ("p_a b,q_a b\n3,2\n", "pair none\n"),
    (
        "q_b,obs,p_a,p_b,q_a\n2,1999,1,2,1\n1,2000,2,1,2\n",
        "pair 1 2\n",
    ),
    (AT_800, "pair 1 2\n"),
    (AT_799, "pair none\n"),
    (
        "e,p_a,q_a,p_b,q_b\n1000,1,1,2,2\n1000.0,2,2,1,1\n",
        "pair 1 2\n",
    ),
];

#[test]
fn pairs_over_worked_tables(rt: HostRuntime) -> Result<(), Fail> {
    for (table, out) in PAIRS {
        prints(
            rt.alloc(),
            &["rp", "pairs", "t.csv"],
            &[("t.csv", table)],
            out,
        )?;
    }
    Ok(())
}
