//! Words that are refused over files that could be read.
use rp_commands::Status;
use std::alloc::Global;
use std::test::Fail;
use tests_inputs::tables::{APART, CERTIFICATE, CONTRADICTION, MORE_AND_LESS};
use tests_support::ends;

/// The usage, with every command.
const USAGE: &str =
    "usage: rp pairs TABLE\n       rp analyse TABLE\n       rp certify TABLE\n       rp check TABLE CERT\n\
    \x20      rp demand TABLE NEW [--json]\n       rp welfare TABLE NEW [--json]\n\
    \x20      rp utility TABLE BUNDLES\n       rp random BUDGETS CHOICES [--per N] [--json]\n\
    \x20      rp checkrandom BUDGETS CHOICES CERT [--per N]\n       rp patches BUDGETS CHOICES [--per N]\n\
    \x20      rp trial SEED ROWS GOODS\n       rp menus FILE [--per N]\n       rp pump TABLE\n\
    \x20      rp cost TECH NEW\n       rp power TABLE SEED N\n";

/// Tables, of which two observations of `t.csv` and of `--x` contradict each other, and bundles, new prices and a
/// certificate beside them.
pub(crate) const FILES: &[(&str, &str)] = &[
    ("t.csv", CONTRADICTION),
    ("--x", CONTRADICTION),
    ("c.json", CERTIFICATE),
    ("--c", CERTIFICATE),
    ("b.csv", "q_a,q_b\n1,1\n"),
    ("two.csv", APART),
    ("three.csv", "p_a,p_b,m\n1,1,3\n"),
    ("even.csv", MORE_AND_LESS),
    ("dear.csv", "p_a,p_b\n1,2\n"),
];

/// The words of a line, with one blank between two: two blanks have an empty word between them, and an empty line has
/// no word at all.
pub(crate) fn words_of<'a>(alloc: Global, line: &'a str) -> Result<Vec<&'a str>, Fail> {
    let mut words = Vec::new(alloc);
    if !line.is_empty() {
        for word in line.split(' ') {
            words.push(word)?;
        }
    }
    Ok(words)
}

/// Each line of words over these files is answered by the usage.
pub(crate) fn each_is_answered_by_the_usage(
    alloc: Global,
    lines: &str,
    files: &[(&str, &str)],
) -> Result<(), Fail> {
    for line in lines.lines() {
        let words = words_of(alloc, line)?;
        ends(alloc, &words, files, Status::Usage, "", USAGE)?;
    }
    Ok(())
}
