//! Words that are taken.
use crate::refusals::words_over_files::{FILES, words_of};
use std::alloc::Global;
use std::test::Fail;
use tests_inputs::tables::CERTIFICATE;
use tests_support::prints;

/// Each line of words over the files prints its text.
fn each_prints(alloc: Global, lines: &[(&str, &str)]) -> Result<(), Fail> {
    for (line, out) in lines {
        let words = words_of(alloc, line)?;
        prints(alloc, &words, FILES, out)?;
    }
    Ok(())
}

const SHAPES: &[(&str, &str)] = &[
    ("rp pairs t.csv", "pair 1 2\n"),
    (" pairs t.csv", "pair 1 2\n"),
    ("rp check t.csv c.json", "accepted items 5 withheld 0\n"),
    (" check t.csv c.json", "accepted items 5 withheld 0\n"),
    (
        "rp utility t.csv b.csv",
        "observations 2 goods 2 places 0 0\ngarp violated\ncycle 1 2 1\nafriat none\ncycle 1 2 1\nat 1 none\n",
    ),
    (
        "rp trial 7 1 1",
        "trial 7 rows 1 goods 1\ngarp holds\nefficiency 1 attained yes\nhomothetic holds\nquasilinear holds\n",
    ),
];

#[test]
fn shapes_are_taken(rt: HostRuntime) -> Result<(), Fail> {
    each_prints(rt.alloc(), SHAPES)
}

const OTHER_FORMS: &[(&str, &str)] = &[
    ("rp pairs -- t.csv", "pair 1 2\n"),
    ("rp pairs -- --x", "pair 1 2\n"),
    ("rp check -- t.csv c.json", "accepted items 5 withheld 0\n"),
    ("rp check t.csv -- --c", "accepted items 5 withheld 0\n"),
    ("rp check t.csv c.json --", "accepted items 5 withheld 0\n"),
    (
        "rp trial +7 001 +01",
        "trial 7 rows 1 goods 1\ngarp holds\nefficiency 1 attained yes\nhomothetic holds\nquasilinear holds\n",
    ),
];

#[test]
fn other_words_are_taken_as_their_matches_say(rt: HostRuntime) -> Result<(), Fail> {
    each_prints(rt.alloc(), OTHER_FORMS)
}

const DEMAND: &str =
    "{\"items\":[{\"item\":\"garp\",\"ranks\":[1,1]},{\"below\":[1,2],\"expenditure\":\"3\",\"goods\":[{\"lower\":{\"den\":\"1\",\"value\":\"1\",\"x\":[\"1\",\"2\"],\"y\":[[2,\"1\"],[4,\"1\"]]},\"upper\":{\"den\":\"1\",\"value\":\"2\",\"x\":[\"2\",\"1\"],\"y\":[[1,\"1\"],[4,\"1\"]]}},{\"lower\":{\"den\":\"1\",\"value\":\"1\",\"x\":[\"2\",\"1\"],\"y\":[[1,\"1\"],[4,\"1\"]]},\"upper\":{\"den\":\"1\",\"value\":\"2\",\"x\":[\"1\",\"2\"],\"y\":[[2,\"1\"],[4,\"1\"]]}}],\"inner\":{\"den\":\"1\",\"num\":[\"2\",\"1\"]},\"item\":\"demand\",\"prices\":[\"1\",\"1\"],\"strict\":[]}],\"kind\":\"table\",\"version\":1}\n";

const WELFARE: &str =
    "{\"items\":[{\"item\":\"garp\",\"ranks\":[2,1]},{\"at\":1,\"item\":\"welfare\",\"lower\":{\"den\":\"1\",\"value\":\"8\",\"x\":[\"8\",\"0\"],\"y\":[[1,\"1\"]]},\"observation\":1,\"prices\":[\"1\",\"2\"],\"upper\":\"12\"},{\"at\":2,\"item\":\"welfare\",\"lower\":{\"den\":\"1\",\"value\":\"4\",\"x\":[\"4\",\"0\"],\"y\":[[1,\"1\"]]},\"observation\":2,\"prices\":[\"1\",\"2\"],\"upper\":\"6\"}],\"kind\":\"table\",\"version\":1}\n";

const AS_JSON: &[(&str, &str)] = &[
    ("rp certify t.csv", CERTIFICATE),
    ("rp demand two.csv three.csv --json", DEMAND),
    ("rp demand --json two.csv three.csv", DEMAND),
    ("rp demand two.csv --json -- three.csv", DEMAND),
    ("rp welfare even.csv dear.csv --json", WELFARE),
];

#[test]
fn certificates_are_written_as_json(rt: HostRuntime) -> Result<(), Fail> {
    each_prints(rt.alloc(), AS_JSON)
}
