//! Reports of `utility`.
use std::test::Fail;
use tests_inputs::tables::{CONTRADICTION, MORE_AND_LESS};
use tests_support::prints;

/// The report on a table whose numbers give a utility to every bundle.
const MODEL: &str =
    "observations 2 goods 2 places 0 0\ngarp holds\nranks 2 1\nafriat model\nutility 0 -4\nlambda 1 1\n";

/// A table, bundles, the report on the table, and a line for each bundle.
const UTILITIES: &[(&str, &str, &str, &str)] = &[
    (MORE_AND_LESS, "q_a,q_b\n3,3\n", MODEL, "at 1 value -2\n"),
    (
        MORE_AND_LESS,
        "q_b,obs,q_a\n4,first,4\n2,second,2\n",
        MODEL,
        "at 1 value 0\nat 2 value -4\n",
    ),
    (
        CONTRADICTION,
        "q_a,q_b\n3,3\n0,1\n",
        "observations 2 goods 2 places 0 0\ngarp violated\ncycle 1 2 1\nafriat none\ncycle 1 2 1\n",
        "at 1 none\nat 2 none\n",
    ),
    (
        "p_a,q_a,p_b,q_b\n1048576,1048577,1,1048576\n1,0,1048576,1048577\n1048576,1,1,0\n",
        "q_a,q_b\n3,3\n",
        "observations 3 goods 2 places 0 0\ngarp holds\nranks 3 2 1\nafriat withheld at 3\n",
        "at 1 withheld\n",
    ),
];

#[test]
fn utility_of_bundles_follows_the_first_two_items(rt: HostRuntime) -> Result<(), Fail> {
    let words = &["rp", "utility", "t.csv", "b.csv"];
    for (table, bundles, report, lines) in UTILITIES {
        let text = format!(in rt.alloc(); "{report}{lines}")?;
        prints(
            rt.alloc(),
            words,
            &[("t.csv", table), ("b.csv", bundles)],
            text.as_str(),
        )?;
    }
    Ok(())
}
