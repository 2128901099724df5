//! Words over choices that are taken.
use crate::refusals::words_over_files::{each_is_answered_by_the_usage, words_of};
use std::alloc::Global;
use std::test::Fail;
use tests_inputs::choices::{CROSSED, OF_VIOLATION, OF_VIOLATION_PER_100, VIOLATION};
use tests_support::prints;

const REPORT: &str =
    "budgets 2 patches 4 types 3 total 4\nrandom violated share 3/4\nweights 1 0 1 0 over 1\n\
    part 1 4 weight 1\npart 2 3 weight 2\n";

const PER_100: &str =
    "budgets 2 patches 4 types 3 total 100\napportioned per 100\nrandom violated share 3/4\n\
    weights 1 0 1 0 over 1\npart 1 4 weight 25\npart 2 3 weight 50\n";

/// Budgets and choices, and their certificates without units that are asked for and with 100.
const FILES: &[(&str, &str)] = &[
    ("b.csv", CROSSED),
    ("c.csv", VIOLATION),
    ("v.json", OF_VIOLATION),
    ("h.json", OF_VIOLATION_PER_100),
];

/// Each line of words prints its text.
fn each_prints(alloc: Global, lines: &[(&str, &str)]) -> Result<(), Fail> {
    for (line, text) in lines {
        let words = words_of(alloc, line)?;
        prints(alloc, &words, FILES, text)?;
    }
    Ok(())
}

const OF_RANDOM: &[(&str, &str)] = &[
    ("rp random b.csv c.csv", REPORT),
    ("rp random b.csv c.csv --per 100", PER_100),
    ("rp random b.csv c.csv --json", OF_VIOLATION),
    (
        "rp random b.csv c.csv --per 100 --json",
        OF_VIOLATION_PER_100,
    ),
    (
        "rp random b.csv c.csv --json --per 100",
        OF_VIOLATION_PER_100,
    ),
    ("rp random b.csv c.csv --per=100", PER_100),
    ("rp random --per 100 b.csv c.csv", PER_100),
    ("rp random b.csv --per=100 c.csv", PER_100),
    (
        "rp random --json --per=100 b.csv c.csv",
        OF_VIOLATION_PER_100,
    ),
    ("rp random b.csv --per 100 -- c.csv", PER_100),
    ("rp random b.csv c.csv --per +100", PER_100),
    ("rp random b.csv c.csv --per=0100", PER_100),
];

#[test]
fn words_of_random_that_are_taken(rt: HostRuntime) -> Result<(), Fail> {
    each_prints(rt.alloc(), OF_RANDOM)
}

/// Each line of words accepts one item.
fn each_is_accepted(alloc: Global, lines: &str) -> Result<(), Fail> {
    for line in lines.lines() {
        let words = words_of(alloc, line)?;
        prints(alloc, &words, FILES, "accepted items 1 withheld 0\n")?;
    }
    Ok(())
}

const OF_CHECKRANDOM: &str = "\
    rp checkrandom b.csv c.csv v.json\n\
    rp checkrandom b.csv c.csv h.json --per 100\n\
    rp checkrandom b.csv c.csv h.json --per=100\n\
    rp checkrandom --per 100 b.csv c.csv h.json\n\
    rp checkrandom b.csv --per=100 c.csv h.json\n\
    rp checkrandom b.csv c.csv v.json --per 4";

#[test]
fn words_of_checkrandom_that_are_taken(rt: HostRuntime) -> Result<(), Fail> {
    each_is_accepted(rt.alloc(), OF_CHECKRANDOM)
}

const REFUSED: &str = "\
    rp random\n\
    rp random b.csv\n\
    rp random b.csv c.csv v.json\n\
    rp random  c.csv\n\
    rp random b.csv \n\
    rp random b.csv -c.csv\n\
    rp random b.csv --json\n\
    rp random b.csv c.csv --json --json\n\
    rp random b.csv c.csv --json=true\n\
    rp random b.csv c.csv --per\n\
    rp random b.csv --per 100\n\
    rp random b.csv c.csv --pe 100\n\
    rp random b.csv c.csv -per 100\n\
    rp random b.csv c.csv --per 100 --per 100\n\
    rp --per 100 random b.csv c.csv\n\
    rp random b.csv c.csv --help\n\
    rp checkrandom b.csv c.csv\n\
    rp checkrandom b.csv c.csv \n\
    rp checkrandom b.csv c.csv v.json v.json\n\
    rp checkrandom b.csv c.csv v.json --json\n\
    rp checkrandom b.csv c.csv v.json --per\n\
    rp checkRandom b.csv c.csv v.json\n\
    rp check-random b.csv c.csv v.json\n\
    rp patches b.csv\n\
    rp patches b.csv c.csv --json\n\
    rp patches b.csv c.csv --per 0";

#[test]
fn other_words_of_random_are_answered_by_the_usage(rt: HostRuntime) -> Result<(), Fail> {
    each_is_answered_by_the_usage(rt.alloc(), REFUSED, FILES)
}

/// With each of these units both commands are answered by the usage.
fn each_unit_is_answered_by_the_usage(alloc: Global, units: &[&str]) -> Result<(), Fail> {
    for per in units {
        let lines = format!(in alloc;
            "rp random b.csv c.csv --per {per}\nrp checkrandom b.csv c.csv v.json --per {per}"
        )?;
        each_is_answered_by_the_usage(alloc, lines.as_str(), FILES)?;
    }
    Ok(())
}

/// So many units are a whole number from 1 to a thousand million.
const OUT_OF_RANGE: &[&str] = &[
    "0",
    "1000000001",
    "4294967396",
    "18446744073709551616",
    "-1",
    "1.0",
    "1e2",
    "0x64",
    "one",
    "",
];

#[test]
fn units_out_of_range_are_answered_by_the_usage(rt: HostRuntime) -> Result<(), Fail> {
    each_unit_is_answered_by_the_usage(rt.alloc(), OUT_OF_RANGE)
}
